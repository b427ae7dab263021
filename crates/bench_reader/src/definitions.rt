ghost use Rattle.std.specs.Prelude.{◌≡◌, ◌≤◌, ◌+◌, List, ℕ, [], ◌∷◌, ◌++◌, None, Some, length, IfOk, MatchResult, if◌then◌else◌};
ghost use Rattle.cts_base.specs.LineFormats.{IsFaultOf};
ghost use Rattle.cts_model.specs.Vocabulary.{is_register, is_gate, statement_of};
ghost use Rattle.bench_reader.specs.Faults.{bench_line_fault};
ghost use Rattle.bench_reader.specs.declared.fault.BenchFault.{BenchFault};
ghost use Rattle.bench_reader.specs.declared.fault.Which.{Which};
ghost use Rattle.bench_reader.specs.View.{said_by};

use crate::kinds::{kind_of, may_have};
use crate::statement::Statement;
use crate::{BenchFault, Which};
use cts_base::NoMemory;
use cts_model::Kind;
use name_set::{HashKey, NameSet};
use std::alloc::Global;

// The most signals that a netlist defines.
const MAX_SIGNALS: usize = 65536;

// How many bytes a line has, about, that defines a signal.
const LINE_BYTES: usize = 32;

// The most registers that a netlist defines.
const MAX_REGISTERS: u32 = 4096;

// The most inputs that gates have in all.
const MAX_GATE_INPUTS: usize = 262_144;

/// What the lines so far define.
#[derive(Drop)]
pub(crate) struct Definitions<'a> {
    pub(crate) names: NameSet<'a>,
    registers: u32,
    gate_inputs: usize,
    ghost few_registers: { registers ≤ 4096 },
    ghost few_inputs: { gate_inputs ≤ 262144 },
}

impl<'a> Definitions<'a> {
    ghost use Rattle.bench_reader.specs.Taken.{HasDefinitions, Adds, excess_after, fault_after};

    /// No definitions of this text yet, with room for as many as it has of usual length.
    pub(crate) fn new(alloc: Global, text: &[u8]) -> Result<Definitions<'a>, NoMemory>
        ensures { IfOk result (λ none. HasDefinitions none []) }
    {
        let room = MAX_SIGNALS.min(text.len() / LINE_BYTES);
        let names = NameSet::with_room(alloc, room, HashKey::of_text(text))?;
        Ok(Definitions {
            names,
            registers: 0,
            gate_inputs: 0,
        })
    }

    /// Takes in what the statement of the line of this number defines, if nothing is wrong with it.
    pub(crate) fn add(&mut self, statement: &Statement<'a>, number: u32) -> Result<(), BenchFault>
        ensures { (earlier : List (List ℕ)) (line : List ℕ)
            → statement_of line ≡ Some (said_by statement.now) → HasDefinitions self.old earlier
            → number ≡ length earlier + 1
            → MatchResult result
            (λ _. (bench_line_fault earlier line ≡ None)
            × HasDefinitions self.new (earlier ++ line ∷ []))
            (IsFaultOf BenchFault.NoMemory (bench_line_fault earlier line)) }
    {
        let short = statement.has_short_names();
        match statement {
            Statement::Blank => Ok(()),
            Statement::Output(_) if short => Ok(()),
            Statement::Output(_) => Err(BenchFault::TooLarge(number, Which::Name)),
            Statement::Input(name) => self.define(number, name, Kind::Input, 0, short),
            Statement::Assign { name, word, inputs } => {
                let Some(kind) = kind_of(word) else {
                    return Err(BenchFault::UnknownKind(number));
                };
                let count = inputs.len();
                if !may_have(kind, count) {
                    return Err(BenchFault::WrongInputs(number));
                }
                self.define(number, name, kind, count, short)
            }
        }
    }

    // Takes in a definition that has a number of inputs which its kind may have, if nothing else is
    // wrong with it.
    fn define(
        &mut self,
        number: u32,
        name: &'a [u8],
        kind: Kind,
        inputs: usize,
        short: bool,
    ) -> Result<(), BenchFault>
        ensures { MatchResult result
            (λ _. (fault_after number self.old name.now kind inputs short ≡ None)
            × Adds self.old self.new name.now kind inputs)
            (IsFaultOf BenchFault.NoMemory
            (fault_after number self.old name.now kind inputs short)) }
    {
        if let Some(which) = self.excess(kind, inputs, short) {
            return Err(if self.names.contains(name) {
                BenchFault::SignalTwice(number)
            } else {
                BenchFault::TooLarge(number, which)
            });
        }
        if !self.names.insert(name)? {
            return Err(BenchFault::SignalTwice(number));
        }
        self.registers += register_count(kind);
        self.gate_inputs += gate_input_count(kind, inputs);
        Ok(())
    }

    // The first limit that one more definition passes.
    fn excess(&self, kind: Kind, inputs: usize, short: bool) -> Option<Which>
        ensures { result
            ≡ (if short then excess_after self.now kind inputs else Some Which.Name) }
    {
        if !short {
            Some(Which::Name)
        } else if self.names.len() >= MAX_SIGNALS {
            Some(Which::Signals)
        } else if register_count(kind) > MAX_REGISTERS - self.registers {
            Some(Which::Registers)
        } else if gate_input_count(kind, inputs) > MAX_GATE_INPUTS - self.gate_inputs {
            Some(Which::Inputs)
        } else {
            None
        }
    }
}

// How many registers a definition of this kind is.
fn register_count(kind: Kind) -> u32
    ensures { result ≡ (if is_register kind then 1 else 0) }
{
    if kind.is_register() { 1 } else { 0 }
}

// How many inputs a definition gives to a gate.
fn gate_input_count(kind: Kind, inputs: usize) -> usize
    ensures { result ≡ (if is_gate kind then inputs else 0) }
{
    if kind.is_gate() { inputs } else { 0 }
}
