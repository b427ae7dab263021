ghost use Rattle.std.specs.Prelude.{◌≡◌, ◌+◌, ◌-◌, ◌≤◌, if◌then◌else◌, ◌^◌, min, IfOk};
ghost use Rattle.cts_base.specs.Vocabulary.{AllDigits, digits_value, without_leading_sign, size_of, HasDigits};

use crate::number::NumberFault;
use crate::number::parts::{begins_with_minus, parts_of, without_sign};
use crate::number::scale::{CEILING, is_zero_after, kept_number, number_after, raised_number};

/// What an exponent is taken for if it is larger: no text has so many digits.
const GREATEST_EXPONENT: u128 = 1_267_650_600_228_229_401_496_703_205_376;

/// The size of a number in millionths.
pub fn size_of(text: &[u8]) -> Result<u64, NumberFault>
    requires { HasDigits text.now }
    ensures told { result ≡ size_of text.now }
    ensures within { IfOk result (λ size. size ≤ 10 ^ 15) }
{
    let parts = parts_of(text);
    let minus = begins_with_minus(parts.exponent);
    let places = places_of(minus, parts.whole.len(), exponent_of(parts.exponent));
    let kept = kept_of(places, parts.whole.len() + parts.fraction.len());
    if !is_zero_after(parts.whole, parts.fraction, kept) {
        return Err(NumberFault::TooFine);
    }
    let number = kept_number(parts.whole, parts.fraction, kept);
    let size = raised_number(number, places - kept as u128);
    if size == CEILING {
        return Err(NumberFault::TooLarge);
    }
    Ok(size as u64)
}

fn exponent_of(exponent: &[u8]) -> u128
    requires { AllDigits 10 (without_leading_sign exponent.now) }
    ensures { result ≡ min (digits_value 10 (without_leading_sign exponent.now))
        GREATEST_EXPONENT }
{
    number_after(0, without_sign(exponent), GREATEST_EXPONENT)
}

// How many digits, and zeros after them, make the millionths.
fn places_of(minus: bool, whole: usize, exponent: u128) -> u128
    requires { exponent ≤ GREATEST_EXPONENT }
    ensures { result ≡ (if minus then whole + 6 - exponent else whole + 6 + exponent) }
{
    let digits = whole as u128 + 6;
    if minus {
        digits.saturating_sub(exponent)
    } else {
        digits + exponent
    }
}

// How many of the digits are among those places.
fn kept_of(places: u128, digits: usize) -> usize
    ensures { result ≡ min places digits }
{
    places.min(digits as u128) as usize
}
