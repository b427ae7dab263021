//! What the text of a report comes to.

ghost use Rattle.std.specs.Prelude.{◌≡◌, ◌⊎◌};
ghost use Rattle.cts_c.specs.Findings.{judged_status, place_in, finding_of};

use crate::finding::Finding;
use cert_check::{Reason, Subject};
use report_text::ReportFault;

/// What the text of a report, whoever made it, comes to.
#[derive(Clone, Copy, Debug, Drop, PartialEq, Eq)]
pub enum Judged {
    /// The report shows what it says.
    Shown,
    /// The text has more bytes than a text may have.
    TooLong,
    /// The text is no report.
    Faulty(ReportFault),
    /// The report doesn't show what it says, for this reason.
    Against(Reason),
}

impl Judged {
    /// The program's exit status.
    pub fn status(self) -> u32
        ensures value { result ≡ judged_status self }
        ensures kind { (result ≡ 0) ⊎ (result ≡ 7) }
    {
        match self {
            Judged::Shown => 0,
            Judged::TooLong | Judged::Faulty(_) | Judged::Against(_) => 7,
        }
    }

    /// The same as numbers.
    pub fn finding(self) -> Finding
        ensures { result ≡ finding_of self }
    {
        match self {
            Judged::Shown => Finding::NOTHING,
            Judged::TooLong => Finding {
                kind: 1,
                number: 0,
                place: 0,
            },
            Judged::Faulty(fault) => {
                let (number, place) = fault.number_and_line();
                Finding {
                    kind: 2,
                    number,
                    place,
                }
            }
            Judged::Against(reason) => {
                let (number, subject) = reason.number_and_subject();
                Finding {
                    kind: 3,
                    number,
                    place: place_in(subject),
                }
            }
        }
    }
}

// The number of what a reason is about, and 0 for the whole report.
fn place_in(subject: Subject) -> u32
    ensures { result ≡ place_in subject }
{
    match subject {
        Subject::Whole => 0,
        Subject::Place(number) | Subject::Register(number) => number,
    }
}
