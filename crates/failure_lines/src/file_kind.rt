ghost use Rattle.std.specs.Prelude.{◌≡◌};
ghost use Rattle.failure_lines.specs.Failures.{kind_word};

/// A file that commands read, in the order in which they are read.
#[derive(Clone, Copy, Debug, PartialEq, Eq)]
pub enum FileKind {
    /// A netlist.
    Bench,
    /// A delay table.
    Tech,
    /// A placement.
    Placement,
    /// A report.
    Report,
    /// A topology.
    Topology,
    /// Moves of registers.
    Moves,
    /// The delay table of the corner with this number, from 1.
    Corner(u32),
}

impl FileKind {
    /// The word for it on the error output.
    pub fn word(self) -> &'static [u8]
        ensures { result.now ≡ kind_word self }
    {
        match self {
            FileKind::Bench => b"bench",
            FileKind::Tech => b"tech",
            FileKind::Placement => b"pl",
            FileKind::Report => b"report",
            FileKind::Topology => b"topology",
            FileKind::Moves => b"moves",
            FileKind::Corner(_) => b"corner",
        }
    }
}
