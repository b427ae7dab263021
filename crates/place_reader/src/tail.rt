ghost use Rattle.std.specs.Prelude.{◌≡◌, ◌∷◌, [], MatchOption};
ghost use Rattle.place_reader.specs.Vocabulary.{str_eq_ignore_ascii_case, begins_with, is_orientation, part_and, is_remark, is_oriented, is_tail};

use cts_base::Words;

/// Whether what is left of a word and the words after it may stand after y.
pub(crate) fn is_tail<'a>(part: &'a [u8], mut words: Words<'a>) -> bool
    ensures { result ≡ is_tail (part_and part.now words.entry) }
{
    let Some(word) = next_part(part, &mut words) else {
        return true;
    };
    if begins_with(b':', word) {
        is_oriented(word.split_at(1).1, words)
    } else {
        begins_with(b'/', word) && words.next().is_none()
    }
}

// Whether what is left of a word and the words after it may stand after a colon.
fn is_oriented<'a>(part: &'a [u8], mut words: Words<'a>) -> bool
    ensures { result ≡ is_oriented (part_and part.now words.entry) }
{
    let Some(word) = next_part(part, &mut words) else {
        return false;
    };
    is_orientation(word) && is_remark(words)
}

// Whether no word is left, or one that begins with `/`.
fn is_remark(mut words: Words) -> bool
    ensures { result ≡ is_remark words.entry }
{
    let Some(word) = words.next() else {
        return true;
    };
    begins_with(b'/', word) && words.next().is_none()
}

// What is left of a word, if anything is, or else the next word.
fn next_part<'a>(part: &'a [u8], words: &mut Words<'a>) -> Option<&'a [u8]>
    ensures { MatchOption result (part_and part.now words.old ≡ [])
        (λ word. part_and part.now words.old ≡ word.now ∷ words.new) }
{
    if part.is_empty() {
        words.next()
    } else {
        Some(part)
    }
}

fn begins_with(byte: u8, word: &[u8]) -> bool
    ensures { result ≡ begins_with byte word.now }
{
    word.first() == Some(&byte)
}

fn is_orientation(word: &[u8]) -> bool
    ensures { result ≡ is_orientation word.now }
{
    same_word(word, b"N")
        || same_word(word, b"S")
        || same_word(word, b"E")
        || same_word(word, b"W")
        || same_word(word, b"FN")
        || same_word(word, b"FS")
        || same_word(word, b"FE")
        || same_word(word, b"FW")
}

// Whether two words differ at most in ASCII case.
fn same_word(word: &[u8], other: &[u8]) -> bool
    ensures { result ≡ str_eq_ignore_ascii_case word.now other.now }
{
    word.eq_ignore_ascii_case(other)
}
