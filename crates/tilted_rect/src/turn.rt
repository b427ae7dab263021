ghost use Rattle.std.specs.Prelude.{◌≡◌, ◌^◌};
ghost use Rattle.cts_model.specs.declared.place.Point.{Point};
ghost use Rattle.cts_model.specs.Vocabulary.{IsPointBelow, IsUvBelow, IsUvMultipleOf, IsPointMultipleOf, rotated};

use cts_model::{Point, Uv, half};

/// The point with these rotated coordinates.
pub fn to_point(at: Uv) -> Point
    requires below { IsUvBelow (10 ^ 33) at }
    requires multiple { IsUvMultipleOf 4 at }
    ensures back { rotated result ≡ at }
    ensures only { (point : Point) → rotated point ≡ at → point ≡ result }
    ensures multiple { IsPointMultipleOf 2 result }
    ensures below { IsPointBelow (10 ^ 33) result }
{
    Point {
        x: half(at.u + at.v),
        y: half(at.u - at.v),
    }
}
