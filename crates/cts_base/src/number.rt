ghost use Rattle.std.specs.Prelude.{◌≡◌, ◌^◌, ◌≤◌};
ghost use Rattle.cts_base.specs.Decimals.{micros_of, signed};

use crate::number::parts::{begins_with_minus, is_decimal};
use crate::number::size::size_of;

mod parts;
mod quotient;
mod scale;
mod size;
mod whole;

pub use quotient::{Quotient, read_fraction, read_quotient};
pub use whole::read_whole;

/// Why a text is refused as a number, in the order in which the faults are judged.
#[derive(Clone, Copy, Debug, PartialEq, Eq)]
pub enum NumberFault {
    /// The text hasn't the form of a number.
    NotNumber,
    /// The value is no multiple of 10^-6.
    TooFine,
    /// The size is above what the call takes: a value above 10^9, or a fraction's number of 10^37.
    TooLarge,
}

/// Reads a decimal number as millionths, exactly, however large its exponent. It takes no memory.
///
/// # Errors
///
/// The first fault of the text, in the order of `NumberFault`.
#[tactic(auto, unfolding(crate::specs::Decimals::micros_of))]
pub fn read_micro(text: &[u8]) -> Result<i64, NumberFault>
    ensures { result ≡ micros_of text.now }
{
    if !is_decimal(text) {
        return Err(NumberFault::NotNumber);
    }
    match size_of(text) {
        Ok(size) => Ok(signed(begins_with_minus(text), size)),
        Err(fault) => Err(fault),
    }
}

fn signed(minus: bool, size: u64) -> i64
    requires { size ≤ 10 ^ 15 }
    ensures { result ≡ signed minus size }
{
    if minus { -(size as i64) } else { size as i64 }
}
