//! A call of the program: the name that it is called by, and the words after that.

ghost use Rattle.std.specs.Prelude.{◌≡◌, ◌≢◌, ℕ, List, map, drop, true, string_bytes, IfOk, IfErr};
ghost use Rattle.cts_program.specs.Vocabulary.{error_kind, exit_status, Failure, is_ending, status_of, failure_line, Reports, Request, Ask, AreDenoted, Ends, EndsFor, Keeps, Reported, ShowsFaults};

use crate::run::run;
use cts_io::{Inputs, Sink};
use failure_lines::Failure;
use std::alloc::Global;
use std::io;
use std::io::ErrorKind;
use std::process::ExitCode;

/// Answers a call with these words, the first of which is the program's name, and gives the exit
/// code. Words that can't be had are reported by one line on `err`: those that are no text are
/// wrong words.
pub fn answer_call<I: Inputs, O: Sink, E: Sink>(
    alloc: Global,
    words: io::Result<Vec<String>>,
    inputs: &mut I,
    out: &mut O,
    err: &mut E,
) -> ExitCode
    // The words after the name are answered as by `run`, with its status.
    ensures done { IfOk words (λ words. is_ending (exit_status result) ≡ true
        → Ends (map string_bytes (drop 1 words.items)) (I.holds inputs.old) (exit_status result)
        (O.written out.old) (O.written out.new)) }
    ensures given { IfOk words (λ words. (request : Request) (contents : List (List ℕ))
        → Ask (map string_bytes (drop 1 words.items)) request
        → AreDenoted (I.holds inputs.old) request.files contents
        → EndsFor request contents (I.faults inputs.old) (I.faults inputs.new) (O.written out.old)
        (O.written out.new) (O.faults out.old) (O.faults out.new) (exit_status result)) }
    ensures reported { IfOk words (λ words. is_ending (exit_status result) ≢ true
        → Reported (map string_bytes (drop 1 words.items)) (I.holds inputs.old)
        (I.faults inputs.old) (I.faults inputs.new) (O.written out.old) (O.written out.new)
        (O.faults out.old) (O.faults out.new) (E.written err.old) (E.written err.new)
        (E.faults err.old) (E.faults err.new) (exit_status result)) }

    // Words that aren't had are reported so.
    ensures no_text { IfErr words (λ error. error_kind error ≢ ErrorKind.OutOfMemory
        → (exit_status result ≡ 2)
        × Reports (failure_line Failure.Usage) (E.written err.old) (E.faults err.old)
        (E.written err.new) (E.faults err.new)) }
    ensures no_memory { IfErr words (λ error. error_kind error ≡ ErrorKind.OutOfMemory
        → (exit_status result ≡ 6)
        × Reports (failure_line Failure.NoMemory) (E.written err.old) (E.faults err.old)
        (E.written err.new) (E.faults err.new)) }

    // No fault is hidden, and nothing is changed that `run` keeps.
    ensures counts { ShowsFaults (I.faults inputs.old) (I.faults inputs.new) (O.faults out.old)
        (O.faults out.new) (exit_status result) }
    ensures keeps { Keeps inputs.old inputs.new (I.holds inputs.old) (I.holds inputs.new)
        (O.written out.old) (O.written out.new) (exit_status result) }
    ensures quiet { is_ending (exit_status result) ≡ true → E.written err.new ≡ E.written err.old }
{
    match words {
        Ok(words) => ExitCode::from(run(alloc, after_name(&words), inputs, out, err)),
        Err(error) if error.kind() == ErrorKind::OutOfMemory => refuse(Failure::NoMemory, err),
        Err(_) => refuse(Failure::Usage, err),
    }
}

// The words after the program's name.
fn after_name(words: &[String]) -> &[String]
    ensures { result.now ≡ drop 1 words.now }
{
    match words {
        [_, suffix @ ..] => suffix,
        [] => &[],
    }
}

// Reports why nothing is answered, and gives the exit code.
fn refuse<E: Sink>(failure: Failure, err: &mut E) -> ExitCode
    ensures status { exit_status result ≡ status_of failure }
    ensures reported { Reports (failure_line failure) (E.written err.old) (E.faults err.old)
        (E.written err.new) (E.faults err.new) }
{
    failure.report(err);
    ExitCode::from(failure.status())
}
