//! The table of refusals: for each fault the kind of the file, the number of the fault and its
//! words.

ghost use Rattle.std.specs.Prelude.{◌≡◌};
ghost use Rattle.failure_lines.specs.Vocabulary.{Failure, NoMemory, Tech, words_failure_of, bench_failure_of, tech_failure_of, topology_failure_of, moves_failure_of, report_failure_of, pair_failure_of};

use crate::failure::Failure::{self, Refused};
use crate::file_kind::FileKind::{self, Bench, Moves, Report, Topology};
use crate::words::Words::{Gate, Key, Limit, Line, Loop, Nothing, Number};
use bench_reader::BenchFault;
use command_line::WordsFault;
use delay_tables::TechFault;
use move_session::MovesFault;
use path_delays::PairFault;
use report_text::ReportFault;
use topology_file::TopologyFault;

/// A fault that ends a command.
pub trait Fault {
    /// The failure that it is reported as.
    ghost failure_of: { Self → Failure };

    /// The failure that it is reported as.
    fn failure(self) -> Failure
        ensures { result ≡ failure_of self };
}

impl<F: Fault> From<F> for Failure {
    ghost from_gives = { λ fault failure. failure ≡ F.failure_of fault };

    fn from(fault: F) -> Failure {
        fault.failure()
    }
}

impl Fault for WordsFault {
    ghost failure_of = { words_failure_of };

    fn failure(self) -> Failure {
        match self {
            WordsFault::Usage => Failure::Usage,
            WordsFault::NoMemory => Failure::NoMemory,
        }
    }
}

impl Fault for BenchFault {
    ghost failure_of = { bench_failure_of };

    fn failure(self) -> Failure {
        match self {
            BenchFault::BadLine(line) => Refused(Bench, 1, Line(line)),
            BenchFault::UnknownKind(line) => Refused(Bench, 2, Line(line)),
            BenchFault::WrongInputs(line) => Refused(Bench, 3, Line(line)),
            BenchFault::SignalTwice(line) => Refused(Bench, 4, Line(line)),
            BenchFault::TooLarge(line, which) => Refused(Bench, 5, Limit(line, which)),
            BenchFault::Undefined(line) => Refused(Bench, 6, Line(line)),
            BenchFault::CombLoop(names) => Refused(Bench, 7, Loop(names)),
            BenchFault::NoRegisters => Refused(Bench, 8, Nothing),
            BenchFault::NoMemory => Failure::NoMemory,
        }
    }
}

impl Fault for TechFault {
    ghost failure_of = { tech_failure_of Tech };

    fn failure(self) -> Failure {
        tech_failure(FileKind::Tech, self)
    }
}

impl Fault for TopologyFault {
    ghost failure_of = { topology_failure_of };

    fn failure(self) -> Failure {
        match self {
            TopologyFault::BadLine(line) => Refused(Topology, 1, Line(line)),
            TopologyFault::NotOpen(line) => Refused(Topology, 2, Line(line)),
            TopologyFault::Missing(line) => Refused(Topology, 3, Line(line)),
            TopologyFault::Extra(line) => Refused(Topology, 4, Line(line)),
            TopologyFault::NoMemory => Failure::NoMemory,
        }
    }
}

impl Fault for MovesFault {
    ghost failure_of = { moves_failure_of };

    fn failure(self) -> Failure {
        match self {
            MovesFault::BadLine(line) => Refused(Moves, 1, Line(line)),
            MovesFault::UnknownRegister(line) => Refused(Moves, 2, Line(line)),
            MovesFault::BadNumber(line, fault) => Refused(Moves, 3, Number(line, fault)),
            MovesFault::TooMany(line) => Refused(Moves, 4, Line(line)),
            MovesFault::NoMemory => Failure::NoMemory,
        }
    }
}

impl Fault for ReportFault {
    ghost failure_of = { report_failure_of };

    fn failure(self) -> Failure {
        match self {
            ReportFault::NoMemory => Failure::NoMemory,
            fault => {
                let (number, line) = fault.number_and_line();
                Refused(Report, number, Line(line))
            }
        }
    }
}

impl Fault for PairFault {
    ghost failure_of = { pair_failure_of };

    fn failure(self) -> Failure {
        match self {
            PairFault::TooManyPairs => Failure::Pairs,
            PairFault::NoMemory => Failure::NoMemory,
        }
    }
}

impl Fault for cts_base::NoMemory {
    ghost failure_of = { λ _. NoMemory };

    fn failure(self) -> Failure {
        Failure::NoMemory
    }
}

/// The failure where a delay table of this kind has this fault.
pub fn tech_failure(kind: FileKind, fault: TechFault) -> Failure
    ensures { result ≡ tech_failure_of kind fault }
{
    match fault {
        TechFault::NotToml => Refused(kind, 1, Nothing),
        TechFault::Missing(key) => Refused(kind, 2, Key(key)),
        TechFault::WrongType(key) => Refused(kind, 3, Key(key)),
        TechFault::OutOfRange(key) => Refused(kind, 4, Key(key)),
        TechFault::LeastAboveGreatest(key) => Refused(kind, 5, Key(key)),
        TechFault::MissingKind(gate) => Refused(kind, 6, Gate(gate)),
        TechFault::UnknownKey(key) => Refused(kind, 7, Key(key)),
        TechFault::NoMemory => Failure::NoMemory,
    }
}
