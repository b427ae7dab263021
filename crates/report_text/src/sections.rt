//! What the sections of a report tell.

use crate::timing_values::Timed;
use crate::tree_values::{MergeLine, NodeLine, SourceLine, TotalLine};
use cts_base::{Fraction, Listed};
use cts_model::{Lead, PeriodShow, Version};

/// A whole report, as its lines tell it.
#[derive(Drop)]
pub(crate) struct Parts {
    /// The first three lines.
    pub heading: Heading,
    /// What shows the period.
    pub shown: Shown,
    /// The sections after these.
    pub body: Body,
}

/// The first three lines.
#[derive(Drop)]
pub(crate) struct Heading {
    /// Which lines the report has.
    pub version: Version,
    /// The period in ticks.
    pub period: Fraction,
    /// How many constraints show the period, or `None` where the floor does.
    pub count: Option<u32>,
}

/// What shows the period.
#[derive(Drop)]
pub(crate) struct Shown {
    /// The cycle or the floor.
    pub shown: PeriodShow,
    /// The path of each constraint, in the second version.
    pub paths: Listed<Listed<u32>>,
}

/// All sections after what shows the period.
#[derive(Drop)]
pub(crate) struct Body {
    /// The registers.
    pub timings: Listed<Timed>,
    /// The leads, in the second version.
    pub leads: Listed<Lead>,
    /// The merges.
    pub merged: Listed<MergeLine>,
    /// The source.
    pub source: SourceLine,
    /// The nodes.
    pub placed: Listed<NodeLine>,
    /// The last line.
    pub total: TotalLine,
}
