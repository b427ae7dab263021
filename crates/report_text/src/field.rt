/// What is wrong with a line first.
#[derive(Clone, Copy, Debug, PartialEq, Eq)]
pub enum Flaw {
    /// Its words, or the form of one.
    Form,
    /// A name is unknown.
    Unknown,
    /// A number is no whole number of its steps, or a register isn't one that may stand there.
    Unfit,
    /// A number is past its bound.
    Large,
}

/// How fine a report's numbers are: arrivals and slacks have so many steps a tick, and lengths so
/// many a length unit.
#[derive(Clone, Copy, Debug, PartialEq, Eq)]
pub struct Scale {
    /// The period's denominator.
    pub den: i128,
    /// The grid steps of a length unit.
    pub grid: i128,
}
