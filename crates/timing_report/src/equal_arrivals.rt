ghost use Rattle.std.specs.Prelude.{◌≡◌, ◌^◌, int_lt, All};
ghost use Rattle.timing_report.specs.Vocabulary.{IsBelow, Circuit, PairDelay, IsZeroSkew, ListsPairs, IsSmallPair, HasSmallDelays, IsZeroSkewOf};

use cts_base::Listed;
use cts_model::{PairDelay, Tech, ZeroSkew};

/// The least period at equal arrivals of a circuit, from the delays of its pairs. It takes no
/// memory.
pub fn zero_skew(pairs: &Listed<PairDelay>, tech: &Tech) -> ZeroSkew
    requires { All IsSmallPair pairs.now }
    ensures listed { IsZeroSkewOf tech.now pairs.now result }
    ensures least { (circuit : Circuit) → ListsPairs circuit tech.now pairs.now
        → IsZeroSkew circuit tech.now result }
    ensures small { HasSmallDelays result }
{
    zero_skew_of(pairs.as_slice(), tech)
}

// The same of a slice.
fn zero_skew_of(pairs: &[PairDelay], tech: &Tech) -> ZeroSkew
    requires { All IsSmallPair pairs.now }
    ensures { IsZeroSkewOf tech.now pairs.now result }
{
    let Some(first) = pairs.first() else {
        return ZeroSkew::Floor { value: tech.floor };
    };
    let mut most = *first;
    for pair in pairs {
        if is_less(pair.least, tech.hold) {
            return ZeroSkew::Fails { pair: *pair };
        }
        if is_less(most.greatest, pair.greatest) {
            most = *pair;
        }
    }
    let value = most.greatest + tech.setup;
    if value <= tech.floor {
        ZeroSkew::Floor { value: tech.floor }
    } else {
        ZeroSkew::Setup { value, pair: most }
    }
}

// Whether a small number is less than another, by their 64 bits.
fn is_less(one: i128, other: i128) -> bool
    requires one { IsBelow (2 ^ 63) one }
    requires other { IsBelow (2 ^ 63) other }
    ensures { result ≡ int_lt one other }
{
    (one as i64) < other as i64
}
