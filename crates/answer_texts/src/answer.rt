ghost use Rattle.std.specs.Prelude.{◌≡◌, IfOk};
ghost use Rattle.answer_texts.specs.Vocabulary.{Tech, text_of, IsForbidding, ending_status, never_lines};

use cts_base::NoMemory;
use cts_model::{Circuit, Constraint};
use report_text::{push_cycle, push_line};
use std::alloc::Global;

/// How an answer ends.
#[derive(Clone, Copy, Debug, Drop, PartialEq, Eq)]
pub enum Ending {
    /// It tells what was asked for.
    Done,
    /// It shows that no period is met.
    Never,
}

impl Ending {
    /// The exit status of the program.
    pub fn status(self) -> u8
        ensures { result ≡ ending_status self }
    {
        match self {
            Ending::Done => 0,
            Ending::Never => 1,
        }
    }
}

/// The whole text of an answer, and how it ends.
#[derive(Drop)]
pub struct Answer {
    pub ending: Ending,
    pub text: Vec<u8>,
}

impl Answer {
    /// The answer that tells what was asked for.
    pub fn done(text: Vec<u8>) -> Answer
        ensures ending { ending_status result.ending ≡ 0 }
        ensures text { result.text.items ≡ text.items }
    {
        Answer {
            ending: Ending::Done,
            text,
        }
    }

    /// The answer for constraints that forbid every period.
    pub fn never(alloc: Global, circuit: &Circuit, cycle: &[Constraint]) -> Result<Answer, NoMemory>
        requires { (tech : Tech) × IsForbidding circuit.now tech cycle.now }
        ensures ending { IfOk result (λ answer. ending_status answer.ending ≡ 1) }
        ensures text { IfOk result (λ answer.
            answer.text.items ≡ text_of (never_lines circuit.now cycle.now)) }
    {
        let mut text = Vec::new(alloc);
        push_line(&mut text, b"never", &[])?;
        push_cycle(&mut text, circuit, cycle)?;
        Ok(Answer {
            ending: Ending::Never,
            text,
        })
    }
}
