use crate::{Lead, PeriodShow, Schedule, Show, Slack, Topology, Tree, Wire};
use cts_base::{Fraction, Listed};

/// Which lines a report has.
#[derive(Clone, Copy, Debug, PartialEq, Eq)]
pub enum Version {
    /// Those of the first version, which has neither paths nor leads.
    First,
    /// Besides, a path for each constraint of the cycle and a lead for each register, which show
    /// that the schedule is the least.
    Second,
}

/// A clock tree with what shows that its period, its schedule and its wire are the least.
#[derive(Debug, Drop)]
pub struct Report {
    /// Which lines it has.
    pub version: Version,
    /// The clock period in ticks.
    pub period: Fraction,
    /// What shows that no period is less.
    pub shown: PeriodShow,
    /// For each constraint of the cycle the signals of a path that gives its weight, or none where
    /// the path isn't printed. In the first version there is no entry.
    pub paths: Listed<Listed<u32>>,
    /// When the clock reaches each register.
    pub schedule: Schedule,
    /// What each register has to spare.
    pub slacks: Listed<Slack>,
    /// Why no arrival can be earlier. In the first version there is no entry.
    pub leads: Listed<Lead>,
    /// How many grid steps a length unit has.
    pub grid: i128,
    /// Which nodes are merged.
    pub topology: Topology,
    /// Where the nodes stand, and how long their edges are.
    pub tree: Tree,
    /// What shows the reach of each merge, and then of the source.
    pub shows: Listed<Show>,
    /// The drawn wire of each edge, by its lower node.
    pub wires: Listed<Wire>,
    /// The length of all edges, in grid steps.
    pub total: i128,
}
