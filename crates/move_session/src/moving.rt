ghost use Rattle.std.specs.Prelude.{◌≡◌, ◌∷◌, [], IfOk};
ghost use Rattle.move_session.specs.Vocabulary.{number_of, moves_line_fault, move_of, told_at, register_names};
ghost use Rattle.move_session.specs.declared.fault.MovesFault.TheVariants as fault;

use crate::{Move, MovesFault};
use cts_base::{Line, LineFormat, Listed, NoMemory, Words};
use cts_model::{Circuit, read_point};
use name_set::{NameSet, register_names};
use std::alloc::Global;

// The most moves that a text has.
const MAX_MOVES: usize = 10000;

/// The moves of the lines so far.
#[derive(Drop)]
pub(crate) struct Moving<'c> {
    names: NameSet<'c>,
    pub(crate) moves: Listed<Move>,
}

ghost use Rattle.move_session.specs.Taken.{HasTaken};

impl<'c> Moving<'c> {
    /// No moves.
    pub(crate) fn new(alloc: Global, circuit: &'c Circuit) -> Result<Moving<'c>, NoMemory>
        ensures names { IfOk result (λ moving. moving.names ≡ register_names circuit.now) }
        ensures fresh { IfOk result (λ moving. HasTaken moving moving []) }
    {
        Ok(Moving {
            names: register_names(alloc, circuit)?,
            moves: Listed::new(alloc),
        })
    }

    // The move that a name and the words after it tell, in the line of a number.
    fn move_of(&self, number: u32, name: &[u8], mut words: Words) -> Result<Move, MovesFault>
        ensures { result ≡ told_at number
            (move_of (number_of self.now.names) (name.now ∷ words.entry)) }
    {
        let (Some(x), Some(y), None) = (words.next(), words.next(), words.next()) else {
            return Err(MovesFault::BadLine(number));
        };
        let Some(register) = self.names.number_of(name) else {
            return Err(MovesFault::UnknownRegister(number));
        };
        match read_point(x, y) {
            Ok(at) => Ok(Move { register, at }),
            Err(fault) => Err(MovesFault::BadNumber(number, fault)),
        }
    }
}

impl<'a, 'c> LineFormat<'a> for Moving<'c> {
    type Fault = MovesFault;

    ghost no_memory = { fault.NoMemory };

    ghost fault_of = { λ start. moves_line_fault (number_of start.names) };

    ghost has_read = { HasTaken };

    fn read_line(&mut self, line: Line<'a>) -> Result<(), MovesFault> {
        let mut words = line.words();
        let Some(name) = words.next() else {
            return Ok(());
        };
        let next = self.move_of(line.number, name, words)?;
        if self.moves.len() >= MAX_MOVES {
            return Err(MovesFault::TooMany(line.number));
        }
        self.moves.push(next)?;
        Ok(())
    }
}
