ghost use Rattle.std.specs.Prelude.{◌≡◌, ◌^◌, ◌≤◌, ℤ, pos, neg_ℤ, ◌↔◌, IsTrue, IfSome, IsNone, min};
ghost use Rattle.cts_base.specs.Vocabulary.{digits_value, IsPlainNumeral, SpellsWhole, kept_size};

use crate::number::parts::{begins_with_minus, is_numeral, without_sign};
use crate::number::scale::number_after;

/// 10^37: a number of that size or more is kept there, and is none of a fraction's.
pub const BOUND: u128 = 10_000_000_000_000_000_000_000_000_000_000_000_000;

/// Reads a whole number: `0`, or an optional `-` and digits without a leading zero. One of 10^37
/// or more in size is given as 10^37 with its sign. It takes no memory.
pub fn read_whole(text: &[u8]) -> Option<i128>
    ensures some { IfSome result (λ number.
        (value : ℤ) × SpellsWhole text.now value × (number ≡ kept_size value)) }
    ensures none { IsNone result ↔ ((value : ℤ) → ¬ (SpellsWhole text.now value)) }
{
    if begins_with_minus(text) {
        return below_zero(without_sign(text));
    }
    read_size(text)
}

// The number below 0 of these digits.
fn below_zero(digits: &[u8]) -> Option<i128>
    ensures some { IfSome result (λ number. IsPlainNumeral digits.now
        × (1 ≤ digits_value 10 digits.now)
        × (number ≡ neg_ℤ (pos (min (digits_value 10 digits.now) (10 ^ 37))))) }
    ensures none { IsNone result
        → ¬ (IsPlainNumeral digits.now × (1 ≤ digits_value 10 digits.now)) }
{
    let size = read_size(digits)?;
    if size == 0 {
        return None;
    }
    Some(-size)
}

// The number of these digits.
fn read_size(digits: &[u8]) -> Option<i128>
    ensures some { IfSome result (λ size. IsPlainNumeral digits.now
        × (size ≡ pos (min (digits_value 10 digits.now) (10 ^ 37)))) }
    ensures none { IsNone result → ¬ (IsPlainNumeral digits.now) }
{
    if !is_plain_numeral(digits) {
        return None;
    }
    Some(number_after(0, digits, BOUND) as i128)
}

fn is_plain_numeral(digits: &[u8]) -> bool
    ensures { IsTrue result ↔ IsPlainNumeral digits.now }
{
    if !is_numeral(digits) {
        return false;
    }
    digits.len() == 1 || digits[0] != b'0'
}
