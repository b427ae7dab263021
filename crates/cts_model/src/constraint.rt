/// What a path asks of the arrivals at the two registers that it joins: the head's arrival is at
/// least the tail's and the weight, less the period where the constraint is a setup constraint.
#[derive(Clone, Copy, Debug, PartialEq, Eq)]
pub struct Constraint {
    /// Whether it is a setup constraint, which counts the period once. A hold constraint doesn't.
    pub setup: bool,
    /// The register from which it leads: the one that launches, of a hold constraint the one that
    /// captures.
    pub tail: u32,
    /// The register to which it leads.
    pub head: u32,
    /// In ticks: the greatest delay and the setup time, or the hold time less the least delay.
    pub weight: i128,
}
