ghost use Rattle.std.specs.Prelude.{◌≡◌, ◌≤◌, ◌^◌, ◌∷◌, ◌++◌, ◌↔◌, IsTrue, length, pos, ◌*ℤ◌, ◌≤ℤ◌, ◌<ℤ◌, nat_abs, OnOk, OnErr};
ghost use Rattle.cts_base.specs.Vocabulary.{IsGcd, IsBelow, IsLowest, fraction_text, quotient_text};

use crate::NoMemory;
use crate::divisor::gcd;
use itoa::Buffer;

/// A fraction of two whole numbers, in lowest terms. Fractions of one value are equal.
#[derive(Clone, Copy, Debug, PartialEq, Eq)]
pub struct Fraction {
    num: i128,
    den: i128,
    pub ghost lowest: { IsLowest num den },
}

impl Fraction {
    /// The fraction of a numerator and a denominator. It takes no memory.
    pub fn of(num: i128, den: i128) -> Fraction
        requires some_den { pos 1 ≤ℤ den }
        requires small_num { IsBelow (10 ^ 37) num }
        requires small_den { IsBelow (10 ^ 37) den }
        ensures value { (result.num *ℤ den) ≡ (num *ℤ result.den) }
        ensures num { nat_abs result.num ≤ nat_abs num }
        ensures den { result.den ≤ℤ den }
    {
        if den == 1 {
            return Fraction { num, den };
        }
        let divisor = common_divisor(num, den);
        Fraction {
            num: num / divisor,
            den: den / divisor,
        }
    }

    /// The numerator in lowest terms.
    pub fn num(self) -> i128
        ensures value { result ≡ self.num }
    {
        self.num
    }

    /// The denominator in lowest terms.
    pub fn den(self) -> i128
        ensures value { result ≡ self.den }
    {
        self.den
    }

    /// Whether the fraction is less than another. It takes no memory.
    pub fn less(self, other: Fraction) -> bool
        requires num { IsBelow (10 ^ 18) self.num }
        requires den { IsBelow (10 ^ 18) self.den }
        requires other_num { IsBelow (10 ^ 18) other.num }
        requires other_den { IsBelow (10 ^ 18) other.den }
        ensures order { IsTrue result ↔ ((self.num *ℤ other.den) <ℤ (other.num *ℤ self.den)) }
    {
        product(self.num, other.den) < product(other.num, self.den)
    }
}

// The greatest common divisor of the two parts.
fn common_divisor(num: i128, den: i128) -> i128
    requires some_den { pos 1 ≤ℤ den }
    ensures greatest { IsGcd (nat_abs num) (nat_abs den) (nat_abs result) }
    ensures some { pos 1 ≤ℤ result }
{
    gcd(num.unsigned_abs(), den.unsigned_abs()) as i128
}

// The product of two small numbers.
fn product(a: i128, b: i128) -> i128
    requires a { IsBelow (10 ^ 18) a }
    requires b { IsBelow (10 ^ 18) b }
    ensures value { result ≡ (a *ℤ b) }
{
    a * b
}

/// Appends the spelling of a quotient of two whole numbers: the fraction of its value.
///
/// # Errors
///
/// `NoMemory` where memory is refused; the bytes are as they were then.
pub fn push_quotient(out: &mut Vec<u8>, num: i128, den: i128) -> Result<(), NoMemory>
    requires some_den { pos 1 ≤ℤ den }
    requires small_num { IsBelow (10 ^ 37) num }
    requires small_den { IsBelow (10 ^ 37) den }
    ensures ok { OnOk result (out.new.items ≡ out.old.items ++ quotient_text num den) }
    ensures err { OnErr result (out.new.items ≡ out.old.items) }
{
    push_fraction(out, Fraction::of(num, den))
}

/// Appends the spelling of a fraction.
///
/// # Errors
///
/// `NoMemory` where memory is refused; the bytes are as they were then.
pub fn push_fraction(out: &mut Vec<u8>, fraction: Fraction) -> Result<(), NoMemory>
    ensures ok { OnOk result (out.new.items
        ≡ out.old.items ++ fraction_text fraction.num fraction.den) }
    ensures err { OnErr result (out.new.items ≡ out.old.items) }
{
    let mut num_buffer = Buffer::new();
    let num = num_buffer.format(fraction.num).as_bytes();
    if fraction.den == 1 {
        out.extend_from_slice(num)?;
        return Ok(());
    }
    let mut den_buffer = Buffer::new();
    push_parts(out, num, den_buffer.format(fraction.den).as_bytes())
}

// Appends two numbers with a `/` between them, or nothing.
fn push_parts(out: &mut Vec<u8>, num: &[u8], den: &[u8]) -> Result<(), NoMemory>
    requires num { length num.now ≤ 40 }
    requires den { length den.now ≤ 40 }
    ensures ok { OnOk result (out.new.items ≡ out.old.items ++ num.now ++ 47 ∷ den.now) }
    ensures err { OnErr result (out.new.items ≡ out.old.items) }
{
    out.reserve(num.len() + den.len() + 1)?;
    out.extend_from_slice(num)?;
    out.push(b'/')?;
    out.extend_from_slice(den)?;
    Ok(())
}
