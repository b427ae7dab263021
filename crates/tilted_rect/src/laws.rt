//! What merging by rectangles alone rests on: a function's clauses are laws, and its body is empty.

ghost use Rattle.tilted_rect.specs.Laws.{EachSetHasExtremes, ReachIsSpread, RegionIsBetween, RegionHasExtremeSides, RegionHasPoint, SquaresMeet, WiderRegionIsNear, SinksOfUShow, SinksOfVShow, SpanIsSymmetric, SinkReach, SinkRegion, AppendIsUnion, UnionHasJoinedExtremes, GrownRegionsMeetInRegion, GrownRegionsMeet, GapIsGreatestSpan, NoGapNoGreaterSpan, UnionReach, GreatestSpanIsMultiple, ReachIsMultiple, CornersAreMultiples};

/// The four extremes of a set of sinks say its reach.
pub fn extremes()
    ensures exist { EachSetHasExtremes }
    ensures reach { ReachIsSpread }
{}

/// Which two sinks show a reach.
pub fn shows()
    ensures u { SinksOfUShow }
    ensures v { SinksOfVShow }
    ensures either_way { SpanIsSymmetric }
{}

/// The region of a set of sinks is a rectangle, with a point exactly where the reach allows it.
pub fn region()
    ensures between { RegionIsBetween }
    ensures sides { RegionHasExtremeSides }
    ensures has_point { RegionHasPoint }
    ensures squares { SquaresMeet }
    ensures wider { WiderRegionIsNear }
{}

/// What merging begins with: a sink alone.
pub fn single()
    ensures reach { SinkReach }
    ensures region { SinkRegion }
{}

/// The region of a union is where the grown regions of its parts meet.
pub fn union()
    ensures append { AppendIsUnion }
    ensures extremes { UnionHasJoinedExtremes }
    ensures region { GrownRegionsMeetInRegion }
    ensures meet { GrownRegionsMeet }
{}

/// What the gap of two regions says of the sinks of both.
pub fn gap()
    ensures above { GapIsGreatestSpan }
    ensures none { NoGapNoGreaterSpan }
    ensures reach { UnionReach }
{}

/// No halving is lost where places and offsets are multiples of 8.
pub fn halves()
    ensures spans { GreatestSpanIsMultiple }
    ensures reach { ReachIsMultiple }
    ensures corners { CornersAreMultiples }
{}
