ghost use Rattle.std.specs.Prelude.{◌≡◌, ◌↔◌, ◌≤◌, ◌*◌, ◌+◌, ◌^◌, ◌∷◌, pos, ◌≤ℤ◌, All, AllPairs, IsTrue, length, take};
ghost use Rattle.cert_check.specs.Vocabulary.{AreApart, IsDrawn, IsStraight, pieces, total, IsPointBelow, IsSmallWire, AreEnds, IsFree, IsWay, Share, greatest_common, least_common, piece};

use cts_model::{Point, Wire, manhattan};

/// Whether the points of a wire are those of a wire of that length from the one place to the other.
pub(crate) fn is_drawn(wire: &Wire, from: Point, to: Point, long: i128) -> bool
    requires { IsSmallWire wire.now }
    ensures { IsTrue result ↔ IsDrawn from to long (take wire.now.used wire.now.corners) }
{
    let (points, _) = wire.corners.split_at(wire.used as usize);
    let way = Way { points };
    way.is_drawn(from, to, long)
}

// The points of a way.
#[derive(Clone, Copy)]
struct Way<'a> {
    points: &'a [Point],
    ghost some: { 1 ≤ length points.now },
    ghost few: { length points.now ≤ 5 },
    ghost small: { All (IsPointBelow (10 ^ 32)) points.now },
}

impl Way<'_> {
    // Whether they are those of a wire of that length from the one place to the other.
    fn is_drawn(&self, from: Point, to: Point, long: i128) -> bool
        ensures { IsTrue result ↔ IsDrawn from to long self.now.points.now }
    {
        self.are_ends(from, to) && self.is_way(long)
    }

    // Whether they begin at the one place and end at the other.
    fn are_ends(&self, from: Point, to: Point) -> bool
        ensures { IsTrue result ↔ AreEnds from to self.now.points.now }
    {
        let points = self.points;
        is_same(points[0], from) && is_same(points[points.len() - 1], to)
    }

    // Whether they are those of a way of that length along x and y that shares no points with
    // itself.
    fn is_way(&self, long: i128) -> bool
        ensures { IsTrue result ↔ IsWay long self.now.points.now }
    {
        match self.points {
            [] => false,
            [first, more @ ..] => {
                is_free(*first, more)
                    && length_through(*first, more) == long
                    && (long != 0 || more.is_empty())
            }
        }
    }
}

// Whether two points are one.
fn is_same(one: Point, other: Point) -> bool
    ensures { IsTrue result ↔ (one ≡ other) }
{
    one == other
}

// Whether the way from a point through others is straight from each to the next and shares no
// points with itself.
fn is_free(from: Point, points: &[Point]) -> bool
    ensures { IsTrue result ↔ IsFree (from ∷ points.now) }
{
    are_straight(from, points) && are_apart(from, points)
}

// Whether the way from a point through others is straight from each to the next.
fn are_straight(from: Point, points: &[Point]) -> bool
    ensures { IsTrue result ↔ All IsStraight (pieces (from ∷ points.now)) }
{
    match points {
        [] => true,
        [to, more @ ..] => is_straight(from, *to) && are_straight(*to, more),
    }
}

// Whether two points differ in exactly one coordinate.
fn is_straight(from: Point, to: Point) -> bool
    ensures { IsTrue result ↔ IsStraight (piece from to) }
{
    (from.x == to.x) != (from.y == to.y)
}

// How long the way from a point through others is.
fn length_through(from: Point, points: &[Point]) -> i128
    requires few { length points.now ≤ 4 }
    requires from { IsPointBelow (10 ^ 32) from }
    requires small { All (IsPointBelow (10 ^ 32)) points.now }
    ensures total { result ≡ total (pieces (from ∷ points.now)) }
    ensures low { pos 0 ≤ℤ result }
    ensures high { result ≤ℤ pos (4 * 10 ^ 32 * length points.now) }
{
    match points {
        [] => 0,
        [to, more @ ..] => manhattan(from, *to) + length_through(*to, more),
    }
}

// Whether no two pieces of the way from a point through others have more than a point in common.
fn are_apart(from: Point, points: &[Point]) -> bool
    ensures { IsTrue result ↔ AllPairs AreApart (pieces (from ∷ points.now)) }
{
    match points {
        [] => true,
        [to, more @ ..] => is_apart_from_all(from, *to, *to, more) && are_apart(*to, more),
    }
}

// Whether a piece has at most one point in common with each piece of the way from a point through
// others.
fn is_apart_from_all(from: Point, to: Point, start: Point, points: &[Point]) -> bool
    ensures { IsTrue result ↔ All (AreApart (piece from to)) (pieces (start ∷ points.now)) }
{
    match points {
        [] => true,
        [end, more @ ..] => {
            is_apart(from, to, start, *end) && is_apart_from_all(from, to, *end, more)
        }
    }
}

// Whether two pieces have at most one point in common.
fn is_apart(from: Point, to: Point, start: Point, end: Point) -> bool
    ensures { IsTrue result ↔ AreApart (piece from to) (piece start end) }
{
    let x = common(across(from, to), across(start, end));
    let y = common(upwards(from, to), upwards(start, end));
    share(x, y)
}

// The numbers from one to another.
#[derive(Clone, Copy)]
struct Stretch {
    from: i128,
    to: i128,
}

// The numbers that a piece goes through along x.
fn across(from: Point, to: Point) -> Stretch
    ensures from { result.from ≡ from.x }
    ensures to { result.to ≡ to.x }
{
    Stretch {
        from: from.x,
        to: to.x,
    }
}

// And along y.
fn upwards(from: Point, to: Point) -> Stretch
    ensures from { result.from ≡ from.y }
    ensures to { result.to ≡ to.y }
{
    Stretch {
        from: from.y,
        to: to.y,
    }
}

// What two stretches have in common, either way round. Where it ends before it begins, that is
// nothing.
fn common(one: Stretch, other: Stretch) -> Stretch
    ensures least { result.from ≡ least_common one.from one.to other.from other.to }
    ensures greatest { result.to ≡ greatest_common one.from one.to other.from other.to }
{
    Stretch {
        from: one.from.min(one.to).max(other.from.min(other.to)),
        to: one.from.max(one.to).min(other.from.max(other.to)),
    }
}

// Whether there is at most one point with its coordinates in these stretches.
fn share(x: Stretch, y: Stretch) -> bool
    ensures { IsTrue result ↔ Share x.from x.to y.from y.to }
{
    x.to < x.from || y.to < y.from || (x.from == x.to && y.from == y.to)
}
