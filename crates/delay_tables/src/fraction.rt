ghost use Rattle.std.specs.Prelude.{◌≡◌, ◌≤◌, pos, ◌*ℤ◌, ◌≤ℤ◌, nat_abs, true, min, position};
ghost use Rattle.delay_tables.specs.Vocabulary.{list_all, is_ascii_digit, digits_value};
ghost use Rattle.cts_model.specs.table.TableValues as denoted;

use cts_base::Fraction;

// The most of either number of a fraction.
const MOST: u32 = 1_000_000;

/// Whether a text is `a/b` or `a`, in digits.
pub(crate) fn is_fraction(text: &[u8]) -> bool
    ensures { result ≡ denoted.is_fraction text.now }
{
    is_numeral(numerator_text(text)) && is_numeral(denominator_text(text))
}

/// Whether both numbers of a fraction are from 1 to 1,000,000.
pub(crate) fn is_small_fraction(text: &[u8]) -> bool
    requires { denoted.is_fraction text.now ≡ true }
    ensures { result ≡ denoted.is_small_fraction text.now }
{
    is_small(numerator_text(text)) && is_small(denominator_text(text))
}

/// The fraction that a text writes, in lowest terms.
pub(crate) fn lowest_terms(text: &[u8]) -> Fraction
    requires form { denoted.is_fraction text.now ≡ true }
    requires small { denoted.is_small_fraction text.now ≡ true }
    ensures value { (result.num *ℤ pos (denoted.denominator_of text.now))
        ≡ (pos (denoted.numerator_of text.now) *ℤ result.den) }
    ensures num { nat_abs result.num ≤ denoted.numerator_of text.now }
    ensures den { result.den ≤ℤ pos (denoted.denominator_of text.now) }
{
    let num = capped_value(numerator_text(text));
    let den = capped_value(denominator_text(text));
    Fraction::of(i128::from(num), i128::from(den))
}

fn numerator_text(text: &[u8]) -> &[u8]
    ensures { result.now ≡ denoted.numerator_text text.now }
{
    match first_slash(text) {
        Some(slash) => text.split_at(slash).0,
        None => text,
    }
}

fn denominator_text(text: &[u8]) -> &[u8]
    ensures { result.now ≡ denoted.denominator_text text.now }
{
    match first_slash(text) {
        Some(slash) => text.split_at(slash + 1).1,
        None => b"1",
    }
}

fn first_slash(text: &[u8]) -> Option<usize>
    ensures { result ≡ position denoted.is_slash text.now }
{
    text.iter().position(|byte| *byte == b'/')
}

fn is_numeral(digits: &[u8]) -> bool
    ensures { result ≡ denoted.is_numeral digits.now }
{
    !digits.is_empty() && is_all_digits(digits)
}

fn is_all_digits(digits: &[u8]) -> bool
    ensures { result ≡ list_all is_ascii_digit digits.now }
{
    digits.iter().all(|digit| digit.is_ascii_digit())
}

fn is_small(digits: &[u8]) -> bool
    requires { denoted.is_numeral digits.now ≡ true }
    ensures { result ≡ denoted.is_between 1 1000000 (digits_value 10 digits.now) }
{
    let value = capped_value(digits);
    1 <= value && value <= MOST
}

// The number that digits write, or one that is too large where it is too large.
fn capped_value(digits: &[u8]) -> u32
    requires { denoted.is_numeral digits.now ≡ true }
    ensures { result ≡ min (digits_value 10 digits.now) 1000001 }
{
    let mut value = 0;
    for digit in digits {
        value = (value * 10 + u32::from(*digit - b'0')).min(MOST + 1);
    }
    value
}
