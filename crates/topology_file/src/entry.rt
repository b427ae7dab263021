ghost use Rattle.std.specs.Prelude.{◌≡◌, ◌<◌, ◌-◌, ◌^◌, [], ◌∷◌, Some, None, if◌then◌else◌};
ghost use Rattle.topology_file.specs.Vocabulary.{digits_value, is_plain_numeral, is_entry, merge_of, kept_number, kept_merge};

use cts_base::{Words, read_whole};
use cts_model::Merge;

/// The merge that the words of a line name, the lower node first, where they are three numbers and
/// the first is the node that is due. Numbers are kept as `number_of` keeps them.
pub(crate) fn merge_of(due: u32, made: &[u8], mut words: Words) -> Option<Merge>
    requires { due < 2 ^ 32 - 1 }
    ensures { result ≡ (if is_entry due (made.now ∷ words.entry)
        then Some (kept_merge (merge_of (made.now ∷ words.entry))) else None) }
{
    let one = words.next()?;
    let other = words.next()?;
    if words.next().is_some() {
        return None;
    }
    merge_of_words(due, made, one, other)
}

// The same of three words.
fn merge_of_words(due: u32, made: &[u8], one: &[u8], other: &[u8]) -> Option<Merge>
    requires { due < 2 ^ 32 - 1 }
    ensures { result ≡ (if is_entry due (made.now ∷ one.now ∷ other.now ∷ [])
        then Some (kept_merge (merge_of (made.now ∷ one.now ∷ other.now ∷ []))) else None) }
{
    if number_of(made)? != due {
        return None;
    }
    let one = number_of(one)?;
    let other = number_of(other)?;
    Some(Merge {
        first: one.min(other),
        second: one.max(other),
    })
}

// The number that a word spells without a sign. One that no node has is kept at the greatest `u32`.
fn number_of(word: &[u8]) -> Option<u32>
    ensures { result ≡ (if is_plain_numeral word.now
        then Some (kept_number (digits_value 10 word.now)) else None) }
{
    let number = read_whole(word)?;
    if number < 0 {
        return None;
    }
    Some(number.min(u32::MAX as i128) as u32)
}
