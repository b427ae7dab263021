//! The command `check`: whether a report, whoever made it, shows what it says.

ghost use Rattle.std.specs.Prelude.{◌≡◌, ◌<◌, ℕ, length, IfOk, IfErr};
ghost use Rattle.cert_check.specs.declared.verdict.Subject.{Subject};
ghost use Rattle.cts_program.specs.Vocabulary.{IsOfSize, IsWithinBounds, ending_status, IsUnshown, IsCheckText, subject_words, OrMemory, reported};
ghost use Rattle.command_line.specs.declared.table.Form.TheVariants as forms;

use crate::reading::copied;
use answer_texts::Answer;
use cert_check::{Subject, Verdict};
use cts_base::NoMemory;
use cts_model::{Circuit, Problem, Report};
use failure_lines::{Failure, Words};
use report_text::push_line;
use std::alloc::Global;

/// That a report, whoever made it, is shown for a problem, or the reason that stands against it.
pub fn check(alloc: Global, problem: &Problem, report: &Report) -> Result<Answer, Failure>
    requires size { IsOfSize problem.now.circuit report.now }
    requires bounds { IsWithinBounds problem.now.tech report.now }
    ensures text { IfOk result (λ answer. (ending_status answer.ending ≡ 0)
        × IsCheckText problem.now report.now answer.text.items) }
    ensures cause { IfErr result
        (OrMemory (IsUnshown forms.Check (reported problem.now report.now))) }
{
    match cert_check::check(alloc, problem, report)? {
        Verdict::Shown => {
            let mut text = Vec::new(alloc);
            push_line(&mut text, b"shown", &[])?;
            Ok(Answer::done(text))
        }
        Verdict::Not(reason) => {
            let (number, subject) = reason.number_and_subject();
            Err(Failure::Unshown(number, subject_words(alloc, &problem.circuit, subject)?))
        }
    }
}

// What a reason is about, in the words of a failure.
fn subject_words(alloc: Global, circuit: &Circuit, subject: Subject) -> Result<Words, NoMemory>
    requires { (register : ℕ) → subject ≡ Subject.Register register
        → register < length circuit.now.registers }
    ensures { IfOk result (λ words. words ≡ subject_words circuit.now subject) }
{
    Ok(match subject {
        Subject::Whole => Words::Nothing,
        Subject::Place(place) => Words::Place(place),
        Subject::Register(register) => {
            Words::Register(copied(alloc, circuit.register_name(register as usize))?)
        }
    })
}
