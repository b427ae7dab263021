use cts_model::Point;

/// A register that goes to another place.
#[derive(Clone, Copy, Debug, PartialEq, Eq)]
pub struct Move {
    /// The register's number.
    pub register: u32,
    /// Where it goes, in micros.
    pub at: Point,
}
