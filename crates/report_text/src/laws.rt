//! What the texts of reports keep: a function's clauses are laws, and its body is empty.

ghost use Rattle.std.specs.Prelude.{ℕ, List};
ghost use Rattle.report_text.specs.Vocabulary.{Circuit, Tech, OneReport, OneFault, NoFaultOfReport, ReportOfNoFault, HasFaultOrReport};

/// A text spells at most one report.
pub fn one_report()
    ensures { OneReport }
{}

/// As a report a text has one fault at the most, and none just where it spells one.
pub fn faults()
    ensures one { OneFault }
    ensures none { NoFaultOfReport }
    ensures report { ReportOfNoFault }
    ensures either { (circuit : Circuit) (tech : Tech) (text : List ℕ)
        → HasFaultOrReport circuit tech text }
{}
