ghost use Rattle.std.specs.Prelude.{◌≡◌};
ghost use Rattle.report_text.specs.FaultNumbers.{fault_numbers};
ghost use Rattle.report_text.specs.declared.fault.ReportFault.TheVariants as fault;

use cts_base::NoMemory;

/// Why a text is no report. The number is that of the line, from 1.
#[derive(Clone, Copy, Debug, PartialEq, Eq)]
pub enum ReportFault {
    /// The line hasn't the form that is due.
    BadLine(u32),
    /// The line names a register that the circuit hasn't.
    UnknownRegister(u32),
    /// The text ends before this line.
    Missing(u32),
    /// The text goes on with this line after the last one that is due.
    Extra(u32),
    /// A number of the line is past its bound.
    TooLarge(u32),
    /// Memory ran out.
    NoMemory,
    /// The line names a signal that the circuit hasn't.
    UnknownSignal(u32),
}

impl ReportFault {
    /// The fault's number, as the program prints it, and its line; want of memory has no line, and
    /// 0 in its place.
    pub fn number_and_line(self) -> (u32, u32)
        ensures { result ≡ fault_numbers self }
    {
        match self {
            ReportFault::BadLine(line) => (1, line),
            ReportFault::UnknownRegister(line) => (2, line),
            ReportFault::Missing(line) => (3, line),
            ReportFault::Extra(line) => (4, line),
            ReportFault::TooLarge(line) => (5, line),
            ReportFault::NoMemory => (6, 0),
            ReportFault::UnknownSignal(line) => (7, line),
        }
    }
}

impl From<NoMemory> for ReportFault {
    ghost from_gives = { λ _ given. given ≡ fault.NoMemory };

    fn from(_refused: NoMemory) -> ReportFault {
        ReportFault::NoMemory
    }
}
