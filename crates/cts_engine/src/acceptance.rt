ghost use Rattle.std.specs.Prelude.{◌≡◌, ◌≢◌, ◌≤◌, ◌↔◌, ◌⊎◌, Bool, IsTrue, List, [], length, Ok, Err, IfOk, IfErr};
ghost use Rattle.cts_engine.specs.Vocabulary.{Problem, has_host, HasNoHost, AreUsedKinds, GivesUsedKinds, RefusesTable, IsHostedBy, TellsDelays, TellBoth, TellAll, IsCircuitRefusal, IsProblemRefusal};

use crate::Refusal;
use bench_reader::read_bench;
use cts_base::NoMemory;
use cts_model::{Circuit, Problem, Tech, used_kinds, with_host};
use delay_tables::{TechFault, read_tech};
use place_reader::read_places;
use std::alloc::Global;

/// A circuit, with the host where it has one, and its delays.
#[derive(Debug, Drop)]
pub struct Denoted {
    pub circuit: Circuit,
    pub tech: Tech,
}

/// The problem that a netlist, a delay table and a placement tell. They are judged in this order,
/// and none after the first that is refused.
///
/// # Errors
///
/// The first text that is refused, with its fault, or want of memory.
pub fn accept(alloc: Global, bench: &[u8], tech: &[u8], places: &[u8]) -> Result<Problem, Refusal>
    requires bench { length bench.now ≤ 16777216 }
    requires places { length places.now ≤ 16777216 }
    ensures ok { IfOk result (TellAll bench.now tech.now places.now) }
    ensures cause { IfErr result (IsProblemRefusal bench.now tech.now places.now) }
    // Texts that tell a problem are accepted, and it is the only one; memory alone is free.
    ensures accepted { (problem : Problem) → TellAll bench.now tech.now places.now problem
        → (result ≡ Ok problem) ⊎ (result ≡ Err Refusal.NoMemory) }
{
    problem_denoted(alloc, bench, tech, places)
}

// The problem, or the first refusal.
fn problem_denoted(
    alloc: Global,
    bench: &[u8],
    tech: &[u8],
    places: &[u8],
) -> Result<Problem, Refusal>
    requires bench { length bench.now ≤ 16777216 }
    requires places { length places.now ≤ 16777216 }
    ensures ok { IfOk result (TellAll bench.now tech.now places.now) }
    ensures cause { IfErr result (IsProblemRefusal bench.now tech.now places.now) }
{
    let Denoted { circuit, tech } = accept_circuit(alloc, bench, tech)?;
    let places = read_places(
        alloc,
        places,
        &circuit,
        tech.source.as_slice(),
        tech.host.as_slice(),
    )?;
    Ok(Problem {
        circuit,
        tech,
        places,
    })
}

/// What a netlist and a delay table tell, without the places. The netlist is judged first.
///
/// # Errors
///
/// The first text that is refused, with its fault, or want of memory.
pub fn accept_circuit(alloc: Global, bench: &[u8], tech: &[u8]) -> Result<Denoted, Refusal>
    requires { length bench.now ≤ 16777216 }
    ensures ok { IfOk result (λ denoted. TellBoth bench.now tech.now denoted.circuit denoted.tech) }
    ensures kinds { IfOk result (λ denoted. GivesUsedKinds denoted.circuit denoted.tech) }
    ensures host { IfOk result (λ denoted.
        IsTrue (has_host denoted.circuit.signals) ↔ (denoted.tech.host ≢ [])) }
    ensures cause { IfErr result (IsCircuitRefusal bench.now tech.now) }
{
    let bare = read_bench(alloc, bench)?;
    Ok(accept_table(alloc, bare, tech)?)
}

/// What a delay table tells of the circuit of a netlist, which it has to give each gate kind of.
///
/// # Errors
///
/// The first fault of the table, or want of memory.
pub fn accept_table(alloc: Global, circuit: Circuit, tech: &[u8]) -> Result<Denoted, TechFault>
    requires { HasNoHost circuit }
    ensures ok { IfOk result (λ denoted. TellsDelays circuit.signals tech.now denoted.tech) }
    ensures hosted { IfOk result (λ denoted. IsHostedBy denoted.tech circuit denoted.circuit) }
    ensures kinds { IfOk result (λ denoted. GivesUsedKinds denoted.circuit denoted.tech) }
    ensures host { IfOk result (λ denoted.
        IsTrue (has_host denoted.circuit.signals) ↔ (denoted.tech.host ≢ [])) }
    ensures cause { IfErr result (λ fault. (used : List Bool)
        × AreUsedKinds circuit.signals used × RefusesTable used tech.now fault) }
{
    let tech = read_tech(alloc, tech, &used_kinds(&circuit))?;
    let circuit = hosted(alloc, circuit, &tech)?;
    Ok(Denoted { circuit, tech })
}

/// The circuit with the host, where the table gives it a place.
///
/// # Errors
///
/// Memory was refused.
pub fn hosted(alloc: Global, circuit: Circuit, tech: &Tech) -> Result<Circuit, NoMemory>
    requires { HasNoHost circuit }
    ensures { IfOk result (IsHostedBy tech.now circuit) }
{
    if tech.host.is_empty() {
        Ok(circuit)
    } else {
        with_host(alloc, circuit)
    }
}
