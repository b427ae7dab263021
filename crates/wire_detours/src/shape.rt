ghost use Rattle.std.specs.Prelude.{◌≡◌, ◌≢◌, [], ◌∷◌};
ghost use Rattle.wire_detours.specs.WirePoints.{bent, shown};

use cts_model::{Point, Wire};

/// What stands past the corners of a wire.
pub(crate) const ORIGIN: Point = Point { x: 0, y: 0 };

/// The point straight above or below the one and beside the other.
pub(crate) fn crossing(under: Point, beside: Point) -> Point
    ensures { result ≡ record { x = under.x; y = beside.y } }
{
    Point {
        x: under.x,
        y: beside.y,
    }
}

// The wire of no length.
fn place(from: Point) -> Wire
    ensures { result ≡ shown 1 (from ∷ []) }
{
    Wire {
        corners: [from, ORIGIN, ORIGIN, ORIGIN, ORIGIN],
        used: 1,
    }
}

// The wire straight to a place above, below or beside.
fn straight(from: Point, to: Point) -> Wire
    ensures { result ≡ shown 2 (from ∷ to ∷ []) }
{
    Wire {
        corners: [from, to, ORIGIN, ORIGIN, ORIGIN],
        used: 2,
    }
}

// The wire along x first and then along y.
fn bent(from: Point, to: Point) -> Wire
    ensures { result ≡ shown 3 (bent from to) }
{
    Wire {
        corners: [from, crossing(to, from), to, ORIGIN, ORIGIN],
        used: 3,
    }
}

/// The wire of the least length.
pub(crate) fn shortest(from: Point, to: Point) -> Wire
    ensures place { from.x ≡ to.x → from.y ≡ to.y → result ≡ shown 1 (from ∷ []) }
    ensures upright { from.x ≡ to.x → from.y ≢ to.y → result ≡ shown 2 (from ∷ to ∷ []) }
    ensures level { from.x ≢ to.x → from.y ≡ to.y → result ≡ shown 2 (from ∷ to ∷ []) }
    ensures bent { from.x ≢ to.x → from.y ≢ to.y → result ≡ shown 3 (bent from to) }
{
    if from.x != to.x && from.y != to.y {
        bent(from, to)
    } else if from.x != to.x || from.y != to.y {
        straight(from, to)
    } else {
        place(from)
    }
}
