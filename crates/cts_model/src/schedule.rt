use crate::Constraint;
use cts_base::{Fraction, Listed};

/// An arrival for each register.
#[derive(Debug, Drop)]
pub struct Schedule {
    /// Over this the arrivals are in ticks.
    pub den: i128,
    /// The arrival at each register, in ticks over the denominator.
    pub at: Listed<i128>,
}

/// Why a register's arrival can't be earlier.
#[derive(Clone, Copy, Debug, PartialEq, Eq)]
pub enum Lead {
    /// It is 0.
    Zero,
    /// A constraint that leads to it is tight, and so many are from a register at 0 on.
    Tight {
        /// How many constraints it takes, this one among them.
        depth: u32,
        /// The last of them.
        constraint: Constraint,
    },
}

/// What a register has to spare, in ticks. Where no path ends at it, there is none.
#[derive(Clone, Copy, Debug, PartialEq, Eq)]
pub struct Slack {
    /// Before the edge that captures, beyond the setup time: the least of all paths.
    pub setup: Option<Fraction>,
    /// After that edge, beyond the hold time: the least of all paths.
    pub hold: Option<Fraction>,
}
