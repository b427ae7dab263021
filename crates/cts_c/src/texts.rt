//! What the texts of a call tell. A caller may hand in a text of any length; one that is too long
//! or has a fault is refused.

ghost use Rattle.std.specs.Prelude.{◌≡◌, ◌↔◌, ℕ, List, IsTrue, IfOk, IfErr};
ghost use Rattle.cts_c.specs.Vocabulary.{Circuit, Problem, Tech, IsLoop, TellBoth, TellAll, IsShort, AreBothShort, AreAllShort, AreBothRefused, AreRefused, FailsFor};

use crate::failure::Failure;
use cts_engine::{Denoted, accept, accept_circuit};
use cts_model::Problem;
use std::alloc::Global;

// The most bytes that a text may have.
const TEXT_LIMIT: usize = 16_777_216;

/// Whether a text has no more bytes than a text may have.
pub fn is_short(text: &[u8]) -> bool
    ensures { IsTrue result ↔ IsShort text.now }
{
    text.len() <= TEXT_LIMIT
}

/// The circuit that a netlist and a delay table tell, with its delays.
pub fn circuit_of(alloc: Global, bench: &[u8], tech: &[u8]) -> Result<Denoted, Failure>
    ensures short { IfOk result (λ _. AreBothShort bench.now tech.now) }
    ensures ok { IfOk result (λ denoted. TellBoth bench.now tech.now denoted.circuit denoted.tech) }
    ensures acyclic { IfOk result (λ denoted.
        (loop : List ℕ) → IsLoop denoted.circuit.signals loop → ⊥) }
    ensures cause { IfErr result (FailsFor (AreBothRefused bench.now tech.now)) }
    ensures accepted { (circuit : Circuit) (delays : Tech) → AreBothShort bench.now tech.now
        → TellBoth bench.now tech.now circuit delays
        → IfErr result (λ failure. failure ≡ Failure.NoMemory) }
{
    if !is_short(bench) || !is_short(tech) {
        return Err(Failure::Refused);
    }
    Ok(accept_circuit(alloc, bench, tech)?)
}

/// The problem that a netlist, a delay table and a placement tell.
pub fn problem_of(alloc: Global, bench: &[u8], tech: &[u8], pl: &[u8]) -> Result<Problem, Failure>
    ensures short { IfOk result (λ _. AreAllShort bench.now tech.now pl.now) }
    ensures ok { IfOk result (TellAll bench.now tech.now pl.now) }
    ensures cause { IfErr result (FailsFor (AreRefused bench.now tech.now pl.now)) }
    ensures accepted { (problem : Problem) → AreAllShort bench.now tech.now pl.now
        → TellAll bench.now tech.now pl.now problem
        → IfErr result (λ failure. failure ≡ Failure.NoMemory) }
{
    if !is_short(bench) || !is_short(tech) || !is_short(pl) {
        return Err(Failure::Refused);
    }
    Ok(accept(alloc, bench, tech, pl)?)
}
