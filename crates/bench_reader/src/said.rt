ghost use Rattle.bench_reader.specs.Said.{IsReading};

use crate::statement::Statement;
use name_set::NameSet;

/// What a line of a netlist says, where it isn't blank.
#[derive(Drop)]
pub(crate) struct Said<'a> {
    /// The line's number, from 1.
    pub(crate) number: u32,
    pub(crate) statement: Statement<'a>,
}

/// A netlist whose lines have no fault, read once: the names that it defines, and what it says.
#[derive(Drop)]
pub(crate) struct Reading<'a> {
    pub(crate) text: &'a [u8],
    pub(crate) names: NameSet<'a>,
    pub(crate) said: Vec<Said<'a>>,
    pub ghost valid: { IsReading text.now names said.items },
}
