ghost use Rattle.cts_model.specs.tree.Problems.{IsProblem};

use crate::{Circuit, Places, Tech};

/// A circuit, its delays and the places of its registers: what a clock tree is made for.
#[derive(Debug, Drop)]
pub struct Problem {
    /// The circuit, with the host where the table gives it a place.
    pub circuit: Circuit,
    /// Its delays.
    pub tech: Tech,
    /// Where its registers and the source stand, in micros.
    pub places: Places,
    pub ghost valid: { IsProblem circuit tech places },
}
