//! The text of the commands `synth` and `embed`: the report of a clock tree.

ghost use Rattle.std.specs.Prelude.{◌≡◌, IfOk};
ghost use Rattle.answer_texts.specs.Vocabulary.{Topology, text_of, IsOutcomeWith, ending_status, synthesis_lines, synthesis_status};

use crate::answer::Answer;
use cts_base::NoMemory;
use cts_model::Problem;
use outcomes::Outcome;
use report_text::write_report;
use std::alloc::Global;

/// The answer for the clock tree of a problem, or for that no period will do.
pub fn tree_answer(alloc: Global, problem: &Problem, outcome: &Outcome) -> Result<Answer, NoMemory>
    requires { (topology : Topology) × IsOutcomeWith problem.now topology outcome.now }
    ensures ending { IfOk result (λ answer.
        ending_status answer.ending ≡ synthesis_status outcome.now) }
    ensures text { IfOk result (λ answer.
        answer.text.items ≡ text_of (synthesis_lines problem.now.circuit outcome.now)) }
{
    match outcome {
        Outcome::Done(report) => {
            let text = write_report(alloc, report, &problem.circuit)?;
            Ok(Answer::done(text))
        }
        Outcome::Never(cycle) => Answer::never(alloc, &problem.circuit, cycle.as_slice()),
    }
}
