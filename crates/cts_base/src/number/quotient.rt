ghost use Rattle.std.specs.Prelude.{◌≡◌, ◌^◌, ◌≤ℤ◌, ℤ, pos, ◌↔◌, IsTrue, IfSome, IsNone, IfOk, MatchResult};
ghost use Rattle.cts_base.specs.Vocabulary.{position, IsErrOf, IsBelow, IsLowest, fraction_text, is_slash, SpellsWhole, SpellsQuotient, kept_size, HaveSmallSizes, IsNoFraction, IsLargeQuotient, RefusesFraction};

use crate::fraction::Fraction;
use crate::number::NumberFault;
use crate::number::whole::{BOUND, read_whole};

/// Two whole numbers over one another as they are spelled, not brought to lowest terms.
#[derive(Clone, Copy, Debug, PartialEq, Eq)]
pub struct Quotient {
    /// The number above.
    pub num: i128,
    /// The number below, at least 1.
    pub den: i128,
}

/// Reads a quotient: a whole number, or two with a `/` between them of which the second is at
/// least 2. Numbers of 10^37 or more in size are given as 10^37 with their sign. It takes no
/// memory.
pub fn read_quotient(text: &[u8]) -> Option<Quotient>
    ensures some { IfSome result (λ quotient. (num : ℤ) × (den : ℤ)
        × SpellsQuotient text.now num den
        × (quotient.num ≡ kept_size num) × (quotient.den ≡ kept_size den)) }
    ensures none { IsNone result ↔ ((num den : ℤ) → ¬ (SpellsQuotient text.now num den)) }
{
    match slash_of(text) {
        Some(end) => read_over(&text[..end], text.split_at(end + 1).1),
        None => read_over_one(text),
    }
}

fn slash_of(text: &[u8]) -> Option<usize>
    ensures { result ≡ position is_slash text.now }
{
    text.iter().position(|byte| *byte == b'/')
}

// The quotient of two texts.
fn read_over(num: &[u8], den: &[u8]) -> Option<Quotient>
    ensures some { IfSome result (λ quotient. (above : ℤ) × (below : ℤ)
        × SpellsWhole num.now above × SpellsWhole den.now below × (pos 2 ≤ℤ below)
        × (quotient.num ≡ kept_size above) × (quotient.den ≡ kept_size below)) }
    ensures none { IsNone result → (above below : ℤ) → SpellsWhole num.now above
        → SpellsWhole den.now below → ¬ (pos 2 ≤ℤ below) }
{
    let above = read_whole(num)?;
    let below = read_whole(den)?;
    if below < 2 {
        return None;
    }
    Some(Quotient {
        num: above,
        den: below,
    })
}

// The quotient of a text over 1.
fn read_over_one(text: &[u8]) -> Option<Quotient>
    ensures some { IfSome result (λ quotient. (num : ℤ) × SpellsWhole text.now num
        × (quotient.num ≡ kept_size num) × (quotient.den ≡ pos 1)) }
    ensures none { IsNone result → (num : ℤ) → ¬ (SpellsWhole text.now num) }
{
    let num = read_whole(text)?;
    Some(Quotient { num, den: 1 })
}

/// Reads a fraction by its one spelling, in lowest terms. It takes no memory.
///
/// # Errors
///
/// `NotNumber` for another form, else `TooLarge` for a number of 10^37 or more in size, else
/// `NotNumber` where it isn't in lowest terms; never `TooFine`.
pub fn read_fraction(text: &[u8]) -> Result<Fraction, NumberFault>
    ensures ok { IfOk result (λ fraction. text.now ≡ fraction_text fraction.num fraction.den) }
    ensures spelled { (fraction : Fraction) → IsBelow (10 ^ 37) fraction.num
        → IsBelow (10 ^ 37) fraction.den
        → text.now ≡ fraction_text fraction.num fraction.den → result ≡ Ok fraction }
    ensures small { IfOk result (λ fraction.
        IsBelow (10 ^ 37) fraction.num × IsBelow (10 ^ 37) fraction.den) }
    ensures not_number { IsErrOf result NumberFault.NotNumber ↔ IsNoFraction text.now }
    ensures too_large { IsErrOf result NumberFault.TooLarge ↔ IsLargeQuotient text.now }
    ensures too_fine { ¬ (IsErrOf result NumberFault.TooFine) }
{
    judged_fraction(text)
}

fn judged_fraction(text: &[u8]) -> Result<Fraction, NumberFault>
    ensures { MatchResult result (λ fraction. SpellsQuotient text.now fraction.num fraction.den
        × HaveSmallSizes fraction.num fraction.den) (RefusesFraction text.now) }
{
    let Some(quotient) = read_quotient(text) else {
        return Err(NumberFault::NotNumber);
    };
    if !has_small_sizes(quotient) {
        return Err(NumberFault::TooLarge);
    }
    match lowest(quotient.num, quotient.den) {
        Some(fraction) => Ok(fraction),
        None => Err(NumberFault::NotNumber),
    }
}

fn has_small_sizes(quotient: Quotient) -> bool
    ensures { IsTrue result ↔ HaveSmallSizes quotient.num quotient.den }
{
    is_small(quotient.num) && is_small(quotient.den)
}

fn is_small(number: i128) -> bool
    ensures { IsTrue result ↔ IsBelow (10 ^ 37) number }
{
    number.unsigned_abs() < BOUND
}

// The fraction of these, where they are in lowest terms.
fn lowest(num: i128, den: i128) -> Option<Fraction>
    requires some_den { pos 1 ≤ℤ den }
    requires small { HaveSmallSizes num den }
    ensures some { IfSome result (λ fraction. (fraction.num ≡ num) × (fraction.den ≡ den)) }
    ensures none { IsNone result → ¬ (IsLowest num den) }
{
    let fraction = Fraction::of(num, den);
    if fraction.den() == den {
        Some(fraction)
    } else {
        None
    }
}
