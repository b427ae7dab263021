ghost use Rattle.std.specs.Prelude.{◌≡◌};
ghost use Rattle.move_session.specs.declared.fault.MovesFault.TheVariants as fault;

use cts_base::{NoMemory, NumberFault};

/// Why moves are refused. Lines are counted from 1, and the first faulty line is named, with the
/// first fault that it has in the order of the variants.
#[derive(Clone, Copy, Debug, PartialEq, Eq)]
pub enum MovesFault {
    /// The line hasn't three words.
    BadLine(u32),
    /// The first word is no register's name.
    UnknownRegister(u32),
    /// x, or else y, is refused as a number.
    BadNumber(u32, NumberFault),
    /// The line is the 10,001st that isn't blank.
    TooMany(u32),
    /// Memory was refused.
    NoMemory,
}

impl From<NoMemory> for MovesFault {
    ghost from_gives = { λ _ given. given ≡ fault.NoMemory };

    fn from(_refused: NoMemory) -> MovesFault {
        MovesFault::NoMemory
    }
}
