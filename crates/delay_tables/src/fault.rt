ghost use Rattle.std.specs.Prelude.{◌≡◌};
ghost use Rattle.delay_tables.specs.declared.fault.TechFault.TheVariants as fault;

use cts_base::{Name, NoMemory};
use cts_model::Kind;
use std::alloc::AllocError;

/// Why a delay table is refused. The name of a key stands after those of its tables, joined by
/// dots. `NotToml` comes first; then the keys are judged one after the other, each by the first
/// three faults on names; the others come after them, in this order.
#[derive(Debug, Drop)]
pub enum TechFault {
    /// The bytes are no TOML document.
    NotToml,
    /// A key that is needed isn't there.
    Missing(Name),
    /// What stands at a key is of another type or form, or a table on its way is no table.
    WrongType(Name),
    /// What stands at a key is out of its range.
    OutOfRange(Name),
    /// The least delay of registers, or of the first such gate kind, is above the greatest.
    LeastAboveGreatest(Name),
    /// The first gate kind that the netlist uses and that has no table.
    MissingKind(Kind),
    /// The least of the names that are neither keys nor tables of keys.
    UnknownKey(Name),
    /// Memory was refused.
    NoMemory,
}

impl From<NoMemory> for TechFault {
    ghost from_gives = { λ _ given. given ≡ fault.NoMemory };

    fn from(_refused: NoMemory) -> TechFault {
        TechFault::NoMemory
    }
}

impl From<AllocError> for TechFault {
    ghost from_gives = { λ _ given. given ≡ fault.NoMemory };

    fn from(_refused: AllocError) -> TechFault {
        TechFault::NoMemory
    }
}
