ghost use Rattle.std.specs.Prelude.{◌≡◌, ◌+◌, ◌*◌, ◌^◌, ◌<◌, ◌≤◌, ◌==◌, ◌++◌, min, length, drop, take};
ghost use Rattle.cts_base.specs.Vocabulary.{list_all, AllDigits, digits_value, digits_value_after, is_zero};

/// One millionth past the greatest size: what grows beyond it is kept there.
pub const CEILING: u128 = 1_000_000_000_000_001;

/// The number that digits write after another number, or the ceiling where that is less.
pub fn number_after(start: u128, digits: &[u8], ceiling: u128) -> u128
    requires digits { AllDigits 10 digits.now }
    requires start { start ≤ ceiling }
    requires ceiling { ceiling < 2 ^ 124 }
    ensures { result ≡ min (digits_value_after 10 start digits.now) ceiling }
{
    let mut number = start;
    for byte in digits {
        number = (number * 10 + u128::from(byte.saturating_sub(b'0'))).min(ceiling);
    }
    number
}

/// The number that the first so many of the digits write, or the ceiling where that is less.
pub fn kept_number(whole: &[u8], fraction: &[u8], kept: usize) -> u128
    requires whole { AllDigits 10 whole.now }
    requires fraction { AllDigits 10 fraction.now }
    requires kept { kept ≤ length whole.now + length fraction.now }
    ensures { result ≡ min (digits_value 10 (take kept (whole.now ++ fraction.now))) CEILING }
{
    let within = kept.min(whole.len());
    let number = number_after(0, &whole[..within], CEILING);
    number_after(number, &fraction[..kept - within], CEILING)
}

/// Whether all digits after the first so many are 0.
pub fn is_zero_after(whole: &[u8], fraction: &[u8], kept: usize) -> bool
    requires { kept ≤ length whole.now + length fraction.now }
    ensures { result ≡ list_all is_zero (drop kept (whole.now ++ fraction.now)) }
{
    let within = kept.min(whole.len());
    are_zeros(whole.split_at(within).1) && are_zeros(fraction.split_at(kept - within).1)
}

fn are_zeros(digits: &[u8]) -> bool
    ensures { result ≡ list_all is_zero digits.now }
{
    digits.iter().all(|byte| *byte == b'0')
}

/// A number times a power of ten, or the ceiling where that is less.
pub fn raised_number(number: u128, places: u128) -> u128
    requires { number ≤ CEILING }
    ensures { result ≡ min (number * 10 ^ places) CEILING }
{
    let mut size = number;
    for _place in 0..places.min(16) {
        size = (size * 10).min(CEILING);
    }
    size
}
