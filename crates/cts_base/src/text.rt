ghost use Rattle.std.specs.Prelude.{◌≡◌, ◌≤◌, length, position};
ghost use Rattle.cts_base.specs.Vocabulary.{numbered_lines, is_hash, words_of, before_hash};

use crate::line_walk::Lines;
use crate::word_walk::Words;
use memchr::memchr;

/// Walks the lines of a text of at most 16 MiB. It takes no memory.
pub fn lines<'a>(text: &'a [u8]) -> Lines<'a>
    requires { length text.now ≤ 16777216 }
    ensures { result ≡ numbered_lines text.now }
{
    Lines::of(text)
}

/// Walks the words of a line. It takes no memory.
pub fn words<'a>(line: &'a [u8]) -> Words<'a>
    ensures { result ≡ words_of line.now }
{
    Words::of(line)
}

/// The part of a line before its first `#`.
pub fn before_comment(line: &[u8]) -> &[u8]
    ensures { result.now ≡ before_hash line.now }
{
    match first_hash(line) {
        Some(end) => &line[..end],
        None => line,
    }
}

fn first_hash(line: &[u8]) -> Option<usize>
    ensures { result ≡ position is_hash line.now }
{
    memchr(b'#', line)
}
