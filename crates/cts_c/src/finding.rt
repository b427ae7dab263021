/// What stands against a report, as numbers; all are 0 where nothing does or none was judged.
#[repr(C)]
#[derive(Clone, Copy, Debug, Drop, PartialEq, Eq)]
pub struct Finding {
    /// 1: the report is too long. 2: it is no report. 3: it doesn't show what it says.
    pub kind: u32,
    /// The number of the fault of a text that is no report, or of the reason, as the program prints
    /// it.
    pub number: u32,
    /// The line of the fault, from 1; or the reason's place of the cycle, its node or its register,
    /// from 0.
    pub place: u32,
}

impl Finding {
    /// Nothing.
    pub const NOTHING: Finding = Finding {
        kind: 0,
        number: 0,
        place: 0,
    };
}
