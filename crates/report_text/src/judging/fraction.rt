ghost use Rattle.std.specs.Prelude.{◌≡◌, ◌↔◌, codes, IfErr, IfOk, IsTrue, MatchOption, pos, ◌≤ℤ◌, ◌<ℤ◌, ◌*ℤ◌, ◌^◌, int_div, int_rem, nat_abs};
ghost use Rattle.report_text.specs.Vocabulary.{fraction_text, quotient_text, HaveSmallSizes, SpellsQuotient, Circuit, IsBelow, slack_text, IsSmallPeriod, IsSmallSlack, AreSteps, WordHasFlaw, HasStepsFlaw, IsBetween, IsNegativeQuotient, IsRefusedFor, flaw_in, Period, Slack, Steps};

use crate::field::Flaw;
use cts_base::{Fraction, NumberFault, Quotient, read_fraction, read_quotient};

// Slacks are below so many steps in size.
const MAX_SLACK: i128 = 100_000_000_000_000_000_000;

/// Reads a period in ticks.
pub(crate) fn read_period(word: &[u8]) -> Result<Fraction, Flaw>
    ensures flaw { (circuit : Circuit) → WordHasFlaw circuit Period word.now (flaw_in result) }
    ensures value { IfOk result (λ period. (word.now ≡ fraction_text period.num period.den)
        × IsSmallPeriod period) }
{
    if is_negative(word) {
        return Err(Flaw::Form);
    }
    let period = fraction_of(word)?;
    if !is_small_period(period) {
        return Err(Flaw::Large);
    }
    Ok(period)
}

// Whether a word spells a quotient below 0.
fn is_negative(word: &[u8]) -> bool
    ensures { IsTrue result ↔ IsNegativeQuotient word.now }
{
    match read_quotient(word) {
        Some(quotient) => is_below_zero(quotient),
        None => false,
    }
}

fn is_below_zero(quotient: Quotient) -> bool
    ensures { IsTrue result ↔ (quotient.num <ℤ pos 0) }
{
    quotient.num < 0
}

// Whether the numbers of a fraction are small enough for a period's.
fn is_small_period(period: Fraction) -> bool
    ensures { IsTrue result ↔ ((period.num <ℤ pos (10 ^ 18)) × (period.den ≤ℤ pos 4097)) }
{
    period.num() < 1_000_000_000_000_000_000 && period.den() <= 4097
}

// The fraction that a word spells.
fn fraction_of(word: &[u8]) -> Result<Fraction, Flaw>
    ensures spelled { IfOk result (λ fraction.
        SpellsQuotient word.now fraction.num fraction.den
        × HaveSmallSizes fraction.num fraction.den
        × (word.now ≡ fraction_text fraction.num fraction.den)) }
    ensures refused { IfErr result (IsRefusedFor word.now) }
{
    match read_fraction(word) {
        Ok(fraction) => Ok(fraction),
        Err(NumberFault::TooLarge) => Err(Flaw::Large),
        Err(NumberFault::NotNumber | NumberFault::TooFine) => Err(Flaw::Form),
    }
}

/// Reads a slack in ticks, of which so many steps make one, or `-` for none.
pub(crate) fn read_slack(over: i128, word: &[u8]) -> Result<Option<Fraction>, Flaw>
    ensures flaw { (circuit : Circuit)
        → WordHasFlaw circuit (Slack over (pos (10 ^ 20))) word.now (flaw_in result) }
    ensures value { IfOk result (λ slack. (word.now ≡ slack_text slack)
        × IsSmallSlack over slack) }
{
    if is_dash(word) {
        return Ok(None);
    }
    let fraction = fraction_of(word)?;
    steps_of(over, MAX_SLACK, fraction)?;
    Ok(Some(fraction))
}

// Whether a word stands for none.
fn is_dash(word: &[u8]) -> bool
    ensures { IsTrue result ↔ (word.now ≡ codes "-") }
{
    word == b"-".as_slice()
}

/// Reads a number of steps, of which so many make a unit, below a bound in size.
pub(crate) fn read_steps(over: i128, bound: i128, word: &[u8]) -> Result<i128, Flaw>
    ensures flaw { (circuit : Circuit)
        → WordHasFlaw circuit (Steps over bound) word.now (flaw_in result) }
    ensures value { pos 1 ≤ℤ over → IfOk result (λ steps. (word.now ≡ quotient_text steps over)
        × IsBelow (nat_abs bound) steps) }
{
    let fraction = fraction_of(word)?;
    steps_of(over, bound, fraction)
}

// How many steps a fraction is, of which so many make a unit, below a bound in size.
fn steps_of(over: i128, bound: i128, fraction: Fraction) -> Result<i128, Flaw>
    ensures flaw { HasStepsFlaw over bound fraction.num fraction.den (flaw_in result) }
    ensures value { IfOk result (λ steps. AreSteps over fraction.num fraction.den steps
        × IsBelow (nat_abs bound) steps) }
{
    if !divides(fraction, over) {
        return Err(Flaw::Unfit);
    }
    match steps_below(over, bound, fraction) {
        Some(steps) => Ok(steps),
        None => Err(Flaw::Large),
    }
}

// Whether the denominator divides a number.
fn divides(fraction: Fraction, over: i128) -> bool
    ensures { IsTrue result ↔ (int_rem over fraction.den ≡ pos 0) }
{
    over % fraction.den() == 0
}

// How many steps a fraction is whose denominator divides those of a unit, where they are below the
// bound in size.
fn steps_below(over: i128, bound: i128, fraction: Fraction) -> Option<i128>
    ensures { MatchOption result (IsBetween bound (fraction.num *ℤ int_div over fraction.den) → ⊥)
        (λ steps. (steps ≡ (fraction.num *ℤ int_div over fraction.den))
        × IsBetween bound (fraction.num *ℤ int_div over fraction.den)) }
{
    product_below(fraction.num(), steps_each(over, fraction), bound)
}

// How many steps a part of that denominator is.
fn steps_each(over: i128, fraction: Fraction) -> i128
    ensures { result ≡ int_div over fraction.den }
{
    over / fraction.den()
}

// A product, where it is below the bound in size.
fn product_below(num: i128, times: i128, bound: i128) -> Option<i128>
    ensures { MatchOption result (IsBetween bound (num *ℤ times) → ⊥)
        (λ product. (product ≡ (num *ℤ times)) × IsBetween bound (num *ℤ times)) }
{
    match num.checked_mul(times) {
        Some(product) if is_below(product, bound) => Some(product),
        _ => None,
    }
}

// Whether so many steps are below the bound in size.
fn is_below(steps: i128, bound: i128) -> bool
    ensures { IsTrue result ↔ IsBetween bound steps }
{
    bound > 0 && steps < bound && -bound < steps
}
