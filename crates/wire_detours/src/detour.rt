ghost use Rattle.std.specs.Prelude.{◌≡◌, ◌^◌, ◌+ℤ◌, ◌-ℤ◌, ◌<ℤ◌, ◌≤ℤ◌};
ghost use Rattle.cts_model.specs.Vocabulary.{IsBelow, IsPointBelow};
ghost use Rattle.wire_detours.specs.WirePoints.{beside, over, round, under, shown};

use crate::shape::{ORIGIN, crossing};
use cts_model::{Point, Wire};

/// How far a wire goes out of its way, and from where.
#[derive(Clone, Copy)]
pub(crate) struct Detour {
    pub(crate) from: Point,
    pub(crate) by: i128,
    pub(crate) ghost near: { IsPointBelow (10 ^ 33) from },
    pub(crate) ghost short: { IsBelow (10 ^ 33) by },
}

impl Detour {
    // The point so far upwards.
    fn above(self) -> Point
        ensures { result ≡ record { x = self.from.x; y = self.from.y +ℤ self.by } }
    {
        Point {
            x: self.from.x,
            y: self.from.y + self.by,
        }
    }

    // The point so far downwards.
    fn below(self) -> Point
        ensures { result ≡ record { x = self.from.x; y = self.from.y -ℤ self.by } }
    {
        Point {
            x: self.from.x,
            y: self.from.y - self.by,
        }
    }

    // The point so far to the right.
    fn right(self) -> Point
        ensures { result ≡ record { x = self.from.x +ℤ self.by; y = self.from.y } }
    {
        Point {
            x: self.from.x + self.by,
            y: self.from.y,
        }
    }

    /// The wire that goes along x so far below where it begins, if it ends higher, and else so far
    /// above.
    pub(crate) fn around(self, to: Point) -> Wire
        ensures under { self.from.y <ℤ to.y → result ≡ shown 4 (under self.from to self.by) }
        ensures over { to.y ≤ℤ self.from.y → result ≡ shown 4 (over self.from to self.by) }
    {
        let turn = if self.from.y < to.y {
            self.below()
        } else {
            self.above()
        };
        Wire {
            corners: [self.from, turn, crossing(to, turn), to, ORIGIN],
            used: 4,
        }
    }

    /// The wire that goes along y so far beside its ends.
    pub(crate) fn beside(self, to: Point) -> Wire
        ensures { result ≡ shown 4 (beside self.from to self.by) }
    {
        let turn = self.right();
        Wire {
            corners: [self.from, turn, crossing(turn, to), to, ORIGIN],
            used: 4,
        }
    }

    /// The wire round a square, back to where it began.
    pub(crate) fn round(self) -> Wire
        ensures { result ≡ shown 5 (round self.from self.by) }
    {
        let right = self.right();
        let high = self.above();
        Wire {
            corners: [self.from, right, crossing(right, high), high, self.from],
            used: 5,
        }
    }
}
