ghost use Rattle.std.specs.Prelude.{◌≡◌};
ghost use Rattle.cert_check.specs.Reasons.{reason_numbers};
ghost use Rattle.cert_check.specs.declared.verdict.Stop.TheVariants as stop;

use cts_base::NoMemory;
use std::alloc::AllocError;

/// What a report comes to.
#[derive(Clone, Copy, Debug, PartialEq, Eq)]
pub enum Verdict {
    /// It shows what it says.
    Shown,
    /// It doesn't, for this reason.
    Not(Reason),
}

/// Why a report doesn't show what it says, in the order in which the reasons are judged. A place of
/// the cycle is counted from 0; registers and nodes have their numbers, and an edge has that of its
/// lower node.
#[derive(Clone, Copy, Debug, PartialEq, Eq)]
pub enum Reason {
    /// The period is below the floor of the delay table.
    BelowFloor,
    /// At this place of the cycle the constraint doesn't end where the next one begins, or begins
    /// where an earlier one does.
    CycleBroken(u32),
    /// The constraint at this place of the cycle isn't one of the circuit.
    NotOfCircuit(u32),
    /// The cycle doesn't give the period, or it isn't the floor that is printed.
    CycleValue,
    /// A path that ends at this register misses setup or hold.
    ScheduleMisses(u32),
    /// This merge doesn't join two nodes that are there, the lower first; or this sink or the
    /// source isn't at its given place.
    TreeShape(u32),
    /// This edge is shorter than the distance of its ends.
    TooShort(u32),
    /// The points of this edge aren't those of a wire of its length between its ends.
    WireSum(u32),
    /// The wires down to this register and to the first one don't differ as scheduled.
    SkewDiffers(u32),
    /// The reach of this merge or of the source isn't the printed one, or its show doesn't give it.
    Unshown(u32),
    /// The printed wire isn't the sum of the lengths.
    Total,
    /// A slack of this register differs.
    SlackDiffers(u32),
    /// The path at this place of the cycle doesn't give the constraint its weight.
    PathBroken(u32),
    /// The arrival at this register is negative, or its lead doesn't show that none is earlier.
    NotLeast(u32),
}

/// What a reason is about. Numbers are counted from 0.
#[derive(Clone, Copy, Debug, PartialEq, Eq)]
pub enum Subject {
    /// The report as a whole.
    Whole,
    /// A place of the cycle, a node of the tree, or an edge by its lower node.
    Place(u32),
    /// A register.
    Register(u32),
}

impl Reason {
    /// The reason's number, as the program prints it, and what it is about.
    pub fn number_and_subject(self) -> (u32, Subject)
        ensures { result ≡ reason_numbers self }
    {
        match self {
            Reason::BelowFloor => (1, Subject::Whole),
            Reason::CycleBroken(place) => (2, Subject::Place(place)),
            Reason::NotOfCircuit(place) => (3, Subject::Place(place)),
            Reason::CycleValue => (4, Subject::Whole),
            Reason::ScheduleMisses(register) => (5, Subject::Register(register)),
            Reason::TreeShape(node) => (6, Subject::Place(node)),
            Reason::TooShort(edge) => (7, Subject::Place(edge)),
            Reason::WireSum(edge) => (8, Subject::Place(edge)),
            Reason::SkewDiffers(register) => (9, Subject::Register(register)),
            Reason::Unshown(node) => (10, Subject::Place(node)),
            Reason::Total => (11, Subject::Whole),
            Reason::SlackDiffers(register) => (12, Subject::Register(register)),
            Reason::PathBroken(place) => (13, Subject::Place(place)),
            Reason::NotLeast(register) => (14, Subject::Register(register)),
        }
    }
}

/// What stops the judgement of a report.
#[derive(Clone, Copy, Debug)]
pub(crate) enum Stop {
    /// It doesn't show what it says, for this reason.
    At(Reason),
    /// Memory was refused.
    NoMemory,
}

impl From<NoMemory> for Stop {
    ghost from_gives = { λ _ given. given ≡ stop.NoMemory };

    fn from(_refused: NoMemory) -> Stop {
        Stop::NoMemory
    }
}

impl From<AllocError> for Stop {
    ghost from_gives = { λ _ given. given ≡ stop.NoMemory };

    fn from(_refused: AllocError) -> Stop {
        Stop::NoMemory
    }
}
