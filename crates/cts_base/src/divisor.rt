ghost use Rattle.std.specs.Prelude.{◌<◌, ◌≤◌};
ghost use Rattle.std.specs.Int.{IsGcd};

/// The greatest common divisor of two numbers, by Euclid's algorithm. It takes no memory.
pub fn gcd(a: u128, b: u128) -> u128
    requires some_b { 0 < b }
    ensures greatest { IsGcd a b result }
    ensures some { 0 < result }
    ensures within { result ≤ b }
{
    let mut x = a;
    let mut y = b;
    while y > u64::MAX as u128 {
        let rest = x % y;
        x = y;
        y = rest;
    }
    if y == 0 {
        return x;
    }
    gcd_in_word(y as u64, (x % y) as u64) as u128
}

// The same in a machine word, where division is quick.
fn gcd_in_word(a: u64, b: u64) -> u64
    ensures greatest { IsGcd a b result }
{
    let mut x = a;
    let mut y = b;
    while y != 0 {
        let rest = x % y;
        x = y;
        y = rest;
    }
    x
}
