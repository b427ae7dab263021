ghost use Rattle.std.specs.Prelude.{◌≡◌, ◌≢◌, ◌⊎◌, ◌↔◌, ◌<◌, ℕ, List, map, true, Some, string_bytes, IfOk, IfErr, IsErrOf};
ghost use Rattle.cts_program.specs.Vocabulary.{Rose, HasValidTables, HasValidValues, Failure, FileKind, status_of, ending_status, is_ending, Request, Ask, request_of, AreDenoted, IsNoCommand, RefusesRequest, CannotRead, Ends, EndsFor, EndsInPart, Fails, Keeps, Reported, ShowsFaults, IsServed};

use crate::commands::{
    check_command, corners_command, embed_command, margin_command, moves_command, period_command,
    schedule_command, synth_command, zero_command,
};
use crate::demo::demo;
use answer_texts::{Answer, Ending};
use command_line::{Command, read_command};
use cts_io::{Inputs, Sink, write_whole};
use failure_lines::Failure;
use report_text::laws;
use std::alloc::Global;

/// All that the program does: answers the words after its name, and gives its exit status. A
/// refusal is reported by one line on `err`; a failing `err` changes no status.
pub fn run<I: Inputs, O: Sink, E: Sink>(
    alloc: Global,
    words: &[String],
    inputs: &mut I,
    out: &mut O,
    err: &mut E,
) -> u8
    // 0 and 1: only where the words mean a command that has an answer with this status for what its
    // files hold, and the text stands whole on the output.
    ensures done { is_ending result ≡ true → Ends (map string_bytes words.now)
        (I.holds inputs.old) result (O.written out.old) (O.written out.new) }

    // 2: exactly where the words are no command.
    ensures usage { (result ≡ 2) ↔ IsNoCommand (map string_bytes words.now) }

    // 3: only where what the files hold makes the command refuse them, and 7 only where the report
    // isn't shown.
    ensures refused { (result ≡ 3) ⊎ (result ≡ 7) → (request : Request)
        × Ask (map string_bytes words.now) request
        × ((failure : Failure) × (status_of failure ≡ result)
        × RefusesRequest (I.holds inputs.old) request failure) }

    // 4: only where the count of a file rose that the command reads, after files that are accepted.
    ensures read_fault { result ≡ 4 → (request : Request)
        × Ask (map string_bytes words.now) request
        × ((kind : FileKind) × CannotRead (I.holds inputs.old) (I.faults inputs.old)
        (I.faults inputs.new) request.files kind) }

    // 5: only where the count of the output rose. A prefix of the text stands there.
    ensures write_fault { result ≡ 5 → Rose (O.faults out.old) (O.faults out.new)
        × EndsInPart (map string_bytes words.now) (I.holds inputs.old) (O.written out.old)
        (O.written out.new) }

    // What the files are known to hold decides the status, but for faults and want of memory.
    ensures given { (request : Request) (contents : List (List ℕ))
        → Ask (map string_bytes words.now) request
        → AreDenoted (I.holds inputs.old) request.files contents
        → EndsFor request contents (I.faults inputs.old) (I.faults inputs.new) (O.written out.old)
        (O.written out.new) (O.faults out.old) (O.faults out.new) result }

    // No fault is hidden, and nothing is changed but the output.
    ensures counts { ShowsFaults (I.faults inputs.old) (I.faults inputs.new) (O.faults out.old)
        (O.faults out.new) result }
    ensures keeps { Keeps inputs.old inputs.new (I.holds inputs.old) (I.holds inputs.new)
        (O.written out.old) (O.written out.new) result }

    // Every other status than 0 and 1 is that of a failure that has its cause, and whose line
    // stands on `err`.
    ensures quiet { is_ending result ≡ true → E.written err.new ≡ E.written err.old }
    ensures reported { is_ending result ≢ true → Reported (map string_bytes words.now)
        (I.holds inputs.old) (I.faults inputs.old) (I.faults inputs.new) (O.written out.old)
        (O.written out.new) (O.faults out.old) (O.faults out.new) (E.written err.old)
        (E.written err.new) (E.faults err.old) (E.faults err.new) result }
{
    laws::one_report();
    laws::faults();
    match write_answer(alloc, words, inputs, out) {
        Ok(ending) => ending.status(),
        Err(failure) => {
            failure.report(err);
            failure.status()
        }
    }
}

// Answers the words: the whole text is made before its first byte is written.
fn write_answer<I: Inputs, O: Sink>(
    alloc: Global,
    words: &[String],
    inputs: &mut I,
    out: &mut O,
) -> Result<Ending, Failure>
    ensures done { IfOk result (λ ending. Ends (map string_bytes words.now) (I.holds inputs.old)
        (ending_status ending) (O.written out.old) (O.written out.new)) }
    ensures cause { IfErr result (Fails (map string_bytes words.now) (I.holds inputs.old)
        (I.faults inputs.old) (I.faults inputs.new) (O.written out.old) (O.written out.new)
        (O.faults out.old) (O.faults out.new)) }
    ensures files { (file : List ℕ) → I.holds inputs.new file ≡ I.holds inputs.old file }
    ensures untouched { IsErrOf result Failure.Usage → inputs.new ≡ inputs.old }
    ensures kept { IfErr result (λ failure. failure ≢ Failure.WriteFault
        → O.written out.new ≡ O.written out.old) }
    ensures reads { ((kind : FileKind) → IsErrOf result (Failure.ReadFault kind) → ⊥)
        → (file : List ℕ) → I.faults inputs.new file ≡ I.faults inputs.old file }
    ensures writes { ¬ IsErrOf result Failure.WriteFault → O.faults out.new ≡ O.faults out.old }
{
    let command = read_command(alloc, words)?;
    let answer = command_answer(alloc, inputs, command)?;
    match write_whole(out, &answer.text) {
        Ok(()) => Ok(answer.ending),
        Err(_) => Err(Failure::WriteFault),
    }
}

// What a command answers whose options have such values, and which has as many tables as it takes.
fn command_answer<I: Inputs>(
    alloc: Global,
    inputs: &mut I,
    command: Command,
) -> Result<Answer, Failure>
    requires values { HasValidValues command }
    requires tables { HasValidTables command }
    ensures { IsServed (I.holds inputs.old) (I.holds inputs.new) (I.faults inputs.old)
        (I.faults inputs.new) (request_of command.entry) result }
{
    match command {
        Command::Zero { bench, tech } => zero_command(alloc, inputs, bench, tech),
        Command::Period { bench, tech } => period_command(alloc, inputs, bench, tech),
        Command::Schedule { bench, tech } => schedule_command(alloc, inputs, bench, tech),
        Command::Synth { bench, tech, pl } => synth_command(alloc, inputs, bench, tech, pl),
        Command::Check {
            bench,
            tech,
            pl,
            report,
        } => check_command(alloc, inputs, bench, tech, pl, report),
        Command::Demo { registers, seed } => demo(alloc, registers, seed),
        Command::Margin {
            bench,
            tech,
            period,
        } => margin_command(alloc, inputs, bench, tech, period),
        Command::Embed {
            bench,
            tech,
            pl,
            topology,
        } => embed_command(alloc, inputs, bench, tech, pl, topology),
        Command::Moves {
            bench,
            tech,
            pl,
            moves,
        } => moves_command(alloc, inputs, bench, tech, pl, moves),
        Command::Corners { bench, tables } => corners_command(alloc, inputs, bench, tables),
    }
}
