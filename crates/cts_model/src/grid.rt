//! The grid of a clock tree: its steps are so fine that all lengths of the tree are whole.

ghost use Rattle.std.specs.Prelude.{◌≡◌, ◌≤◌, ◌^◌, ◌*ℤ◌, neg_ℤ, All, IfOk, length, unsigned_abs};
ghost use Rattle.cts_model.specs.placement.Points.{IsBelow, IsPointBelow, rotated};
ghost use Rattle.cts_model.specs.timing.Schedules.{IsSmallPeriod};
ghost use Rattle.cts_model.specs.tree.Problems.{grid_of, on_grid, scheduled_length, sink_of, sinks_of, steps_of_micro};

use crate::place::{Point, Sink, Uv, to_uv};
use crate::tech::Tech;
use cts_base::{Fraction, Listed, NoMemory};
use std::alloc::Global;

/// The grid of the clock tree for a period.
#[derive(Clone, Copy)]
pub struct Grid<'a> {
    /// The period, in ticks.
    pub period: Fraction,
    /// The table that says how much a wire delays.
    pub tech: &'a Tech,
    pub ghost small: { IsSmallPeriod period },
}

impl Grid<'_> {
    /// How many grid steps a length unit has: fewer than 3.28 * 10^16. It takes no memory.
    pub fn steps_of_unit(&self) -> i128
        ensures { result ≡ grid_of self.now.period self.now.tech.now }
    {
        1_000_000 * self.steps_of_micro()
    }

    // How many grid steps a micro has.
    fn steps_of_micro(&self) -> i128
        ensures value { result ≡ steps_of_micro self.now.period self.now.tech.now }
        ensures size { unsigned_abs result ≤ 32776000000 }
    {
        product(8 * self.period.den(), self.tech.wire_num)
    }

    /// A given point, in micros, in grid steps and rotated coordinates. It takes no memory.
    pub fn rotated(&self, point: Point) -> Uv
        requires { IsPointBelow 1000000000000001 point }
        ensures { result ≡ rotated (on_grid self.now.period self.now.tech.now point) }
    {
        to_uv(self.point(point))
    }

    // A given point in grid steps.
    fn point(&self, point: Point) -> Point
        requires near { IsPointBelow 1000000000000001 point }
        ensures value { result ≡ on_grid self.now.period self.now.tech.now point }
        ensures below { IsPointBelow (10 ^ 26) result }
    {
        let steps = self.steps_of_micro();
        Point {
            x: product(steps, point.x),
            y: product(steps, point.y),
        }
    }

    // A register as the clock tree sees it.
    fn sink(&self, place: Point, arrival: i128) -> Sink
        requires near { IsPointBelow 1000000000000001 place }
        requires small { IsBelow (10 ^ 19) arrival }
        ensures { result ≡ sink_of self.now.period self.now.tech.now place arrival }
    {
        Sink {
            at: self.rotated(place),
            offset: self.tech.offset(arrival),
        }
    }

    /// The registers as the clock tree sees them, by their places in micros and by their arrivals
    /// in ticks over the period's denominator.
    ///
    /// # Errors
    ///
    /// `NoMemory` where memory is refused.
    pub fn sinks(
        &self,
        alloc: Global,
        places: &[Point],
        arrivals: &[i128],
    ) -> Result<Listed<Sink>, NoMemory>
        requires near { All (IsPointBelow 1000000000000001) places.now }
        requires small { All (IsBelow (10 ^ 19)) arrivals.now }
        requires all { length arrivals.now ≡ length places.now }
        ensures { IfOk result (λ sinks.
            sinks ≡ sinks_of self.now.period self.now.tech.now places.now arrivals.now) }
    {
        let mut sinks = Listed::new(alloc);
        for (register, place) in places.iter().enumerate() {
            sinks.push(self.sink(*place, arrivals[register]))?;
        }
        Ok(sinks)
    }
}

impl Tech {
    /// What the wire down to a sink counts beyond its length, in grid steps: minus the length that
    /// delays the clock as long as the sink's arrival is, in ticks over the period's denominator.
    /// It takes no memory.
    pub fn offset(&self, arrival: i128) -> i128
        requires { IsBelow (10 ^ 19) arrival }
        ensures { result ≡ neg_ℤ (scheduled_length self.now arrival) }
    {
        -self.scheduled_length(arrival)
    }

    // The length of wire that delays the clock as long as an arrival is.
    fn scheduled_length(&self, arrival: i128) -> i128
        requires { IsBelow (10 ^ 19) arrival }
        ensures { result ≡ scheduled_length self.now arrival }
    {
        product(arrival, 8_000_000 * self.wire_den)
    }
}

/// The product of two numbers. It takes no memory.
pub fn product(a: i128, b: i128) -> i128
    requires a { IsBelow (10 ^ 20) a }
    requires b { IsBelow (10 ^ 16) b }
    ensures value { result ≡ a *ℤ b }
    ensures small { IsBelow (10 ^ 37) result }
{
    a * b
}
