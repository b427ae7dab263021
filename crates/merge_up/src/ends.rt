ghost use Rattle.std.specs.Prelude.{◌≡◌, ℕ, ℤ, ◌+ℤ◌, ◌∷◌, [], ◌++◌, ◌*◌, ◌^◌, List, Some, slice_get};
ghost use Rattle.merge_up.specs.Vocabulary.{Sink, IsBelow, IsMultipleOf, IsTreeSink, IsEnd, AreEnds, ShowsMerge, HasExtremeSides, extremes_of, pair_of, spread};

use crate::end::End;
use crate::side::Side;
use cts_model::{Show, Sink, half};
use tilted_rect::Rect;

/// The sinks of a node that are furthest to the four sides, in rotated coordinates.
#[derive(Clone, Copy, Debug, PartialEq, Eq)]
pub struct Ends {
    /// To the side of greater u.
    pub high_u: End,
    /// To the side of smaller u.
    pub low_u: End,
    /// To the side of greater v.
    pub high_v: End,
    /// To the side of smaller v.
    pub low_v: End,
}

impl Ends {
    /// The ends of a sink alone.
    pub(crate) fn of(register: u32, sink: Sink) -> Ends
        requires { IsTreeSink sink }
        ensures { (sinks : List Sink) → slice_get sinks register ≡ Some sink
            → AreEnds sinks (register ∷ []) result }
    {
        Ends {
            high_u: Side::HighU.end_of(register, sink),
            low_u: Side::LowU.end_of(register, sink),
            high_v: Side::HighV.end_of(register, sink),
            low_v: Side::LowV.end_of(register, sink),
        }
    }

    /// The ends of the sinks of both.
    pub(crate) fn joined(self, other: Ends) -> Ends
        ensures { (sinks : List Sink) (first second : List ℕ)
            → AreEnds sinks first self → AreEnds sinks second other
            → AreEnds sinks (first ++ second) result }
    {
        Ends {
            high_u: further(self.high_u, other.high_u),
            low_u: further(self.low_u, other.low_u),
            high_v: further(self.high_v, other.high_v),
            low_v: further(self.low_v, other.low_v),
        }
    }

    /// Half of the greater spread, and where a node with that reach may stand.
    pub(crate) fn reach_and_region(self) -> (i128, Rect)
        ensures twice { result.0 +ℤ result.0 ≡ spread (extremes_of self) }
        ensures region { HasExtremeSides result.1 (extremes_of self) result.0 }
    {
        let reach = half(self.spread());
        let region = Rect {
            ulo: self.high_u.far - reach,
            uhi: reach - self.low_u.far,
            vlo: self.high_v.far - reach,
            vhi: reach - self.low_v.far,
        };
        (reach, region)
    }

    // The greater spread, that of u or that of v.
    fn spread(self) -> i128
        ensures value { result ≡ spread (extremes_of self) }
        ensures below { IsBelow (4 * 10 ^ 31) result }
        ensures multiple { IsMultipleOf 8 result }
    {
        spread(self.high_u, self.low_u).max(spread(self.high_v, self.low_v))
    }

    /// The two sinks with the greater spread.
    pub(crate) fn show(self) -> Show
        ensures { (sinks : List Sink) (numbers : List ℕ) (reach : ℤ)
            → AreEnds sinks numbers self → reach +ℤ reach ≡ spread (extremes_of self)
            → ShowsMerge sinks numbers reach result }
    {
        if spread(self.high_v, self.low_v) < spread(self.high_u, self.low_u) {
            pair(self.high_u.sink, self.low_u.sink)
        } else {
            pair(self.high_v.sink, self.low_v.sink)
        }
    }
}

// The further of two.
fn further(one: End, other: End) -> End
    ensures { (sinks : List Sink) (first second : List ℕ) (far : Sink → ℤ)
        → IsEnd sinks first far one → IsEnd sinks second far other
        → IsEnd sinks (first ++ second) far result }
{
    if one.far < other.far { other } else { one }
}

// How far the ends to opposite sides are apart.
fn spread(high: End, low: End) -> i128
    ensures value { result ≡ high.far +ℤ low.far }
    ensures below { IsBelow (4 * 10 ^ 31) result }
    ensures multiple { IsMultipleOf 8 result }
{
    high.far + low.far
}

// The lower number first.
fn pair(one: u32, other: u32) -> Show
    ensures { result ≡ pair_of one other }
{
    Show::Pair(one.min(other), one.max(other))
}
