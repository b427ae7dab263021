ghost use Rattle.std.specs.Prelude.{◌≡◌, ◌*◌, ◌^◌, pos, ◌+ℤ◌, ◌≤ℤ◌, ◌<ℤ◌};
ghost use Rattle.cts_model.specs.placement.Points.{IsBelow, IsMultipleOf, IsPointBelow, apart, distance, rotated, rotated_distance};
ghost use Rattle.cts_model.specs.declared.place.Point as model;

use cts_base::Listed;

/// A point of the plane: in millionths of a length unit where it is given, in grid steps in a tree.
#[derive(Clone, Copy, Debug, PartialEq, Eq)]
pub struct Point {
    /// Rightwards.
    pub x: i128,
    /// Upwards.
    pub y: i128,
}

/// A point by the sum and the difference of its coordinates.
#[derive(Clone, Copy, Debug, PartialEq, Eq)]
pub struct Uv {
    /// x + y.
    pub u: i128,
    /// x - y.
    pub v: i128,
}

/// A register as the clock tree sees it.
#[derive(Clone, Copy, Debug, PartialEq, Eq)]
pub struct Sink {
    /// Where it stands.
    pub at: Uv,
    /// What the wire down to it counts beyond its length: minus its scheduled length.
    pub offset: i128,
}

/// Where the nodes of a circuit stand, in micros.
#[derive(Debug, Drop)]
pub struct Places {
    /// Where the clock comes from.
    pub source: Point,
    /// The registers, by their numbers.
    pub registers: Listed<Point>,
}

/// A point in rotated coordinates. It takes no memory.
pub fn to_uv(at: Point) -> Uv
    requires { IsPointBelow (10 ^ 33) at }
    ensures value { result ≡ rotated at }
    ensures distance { (other : model.Point)
        → distance at other ≡ rotated_distance result (rotated other) }
{
    Uv {
        u: at.x + at.y,
        v: at.x - at.y,
    }
}

/// The length of the shortest wire from one point to another along x and y. It takes no memory.
pub fn manhattan(a: Point, b: Point) -> i128
    requires from { IsPointBelow (10 ^ 33) a }
    requires to { IsPointBelow (10 ^ 33) b }
    ensures value { result ≡ distance a b }
    ensures rotated { result ≡ rotated_distance (rotated a) (rotated b) }
{
    apart(a.x, b.x) + apart(a.y, b.y)
}

fn apart(a: i128, b: i128) -> i128
    requires from { IsBelow (10 ^ 33) a }
    requires to { IsBelow (10 ^ 33) b }
    ensures value { result ≡ apart a b }
    ensures low { pos 0 ≤ℤ result }
    ensures high { result <ℤ pos (2 * 10 ^ 33) }
{
    (a - b).max(b - a)
}

/// Half of an even number. It takes no memory.
pub fn half(sum: i128) -> i128
    requires { IsMultipleOf 2 sum }
    ensures { result +ℤ result ≡ sum }
{
    sum / 2
}
