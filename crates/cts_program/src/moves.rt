//! The command `moves`: how long the clock tree is, and how long after each move of a register.

ghost use Rattle.std.specs.Prelude.{◌<◌, ◌^◌, All, IfOk, IfErr, OnOk, length};
ghost use Rattle.cts_program.specs.Vocabulary.{Problem, JoinsMoreThan, IsWithin, IsGrid, IsSessionOf, ending_status, IsMovesText, IsWiresText, AppendsWire, IsNearMove, FailsCircuit};

use answer_texts::Answer;
use cts_base::{Listed, NoMemory};
use cts_engine::{SessionOutcome, move_register, session_of};
use cts_model::Problem;
use failure_lines::Failure;
use move_session::{Move, Session};
use report_text::push_wire_length;
use std::alloc::Global;

/// How long the clock tree of a problem is, and how long it is after each of these moves, in
/// length units.
pub fn moves(alloc: Global, problem: &Problem, moves: &Listed<Move>) -> Result<Answer, Failure>
    requires { All (IsNearMove (length problem.now.circuit.registers)) moves.now }
    ensures few { IfOk result (λ _. JoinsMoreThan problem.now.circuit 1048576 → ⊥) }
    ensures text { IfOk result (λ answer. IsMovesText problem.now moves.now
        (ending_status answer.ending) answer.text.items) }
    ensures cause { IfErr result (FailsCircuit problem.now.circuit) }
{
    match session_of(alloc, problem)? {
        SessionOutcome::Found { session, grid } => {
            let text = wires(alloc, session, grid, moves.as_slice())?;
            Ok(Answer::done(text))
        }
        SessionOutcome::Never(cycle) => {
            Ok(Answer::never(alloc, &problem.circuit, cycle.as_slice())?)
        }
    }
}

// The line of a session's tree, and its line after each of these moves.
fn wires(
    alloc: Global,
    mut session: Session,
    grid: i128,
    moves: &[Move],
) -> Result<Vec<u8>, NoMemory>
    requires grid { IsGrid grid }
    requires moves { All (IsNearMove (length session.sinks)) moves.now }
    ensures { (problem : Problem) → IsSessionOf problem session grid
        → IfOk result (λ text. IsWiresText problem moves.now text.items) }
{
    let mut text = Vec::new(alloc);
    push_wire(&mut text, &session, grid)?;
    for next in moves {
        move_register(&mut session, grid, next.register, next.at);
        push_wire(&mut text, &session, grid)?;
    }
    Ok(text)
}

// Appends the line of a session's tree.
fn push_wire(out: &mut Vec<u8>, session: &Session, grid: i128) -> Result<(), NoMemory>
    requires { IsWithin 1 (10 ^ 17) grid }
    ensures { OnOk result (AppendsWire session.now grid out.old.items out.new.items) }
{
    let total = session.total();
    push_wire_length(out, grid, total)?;
    Ok(())
}
