ghost use Rattle.std.specs.Prelude.{◌≡◌, ◌≤◌, List, ℕ, Some, true, [], ◌∷◌, ◌++◌, length, IfOk, IfErr, OnOk, IsSomeAnd, nat_eq};
ghost use Rattle.bench_reader.specs.Vocabulary.{filter_map, IsFaultOf, first_fault, lines_of, registers_of, number_of, statement_of, uses_of, insert_key, BenchFault, has_kind, use_fault, HasParts, AreNumbered, IsUseFault, said_by};

use crate::BenchFault;
use crate::input_list::InputList;
use crate::kinds::kind_of;
use crate::said::{Reading, Said};
use crate::statement::Statement;
use cts_base::{Listed, NoMemory};
use cts_model::{FanIn, Kind, Signal};
use indexmap::IndexSet;
use name_set::{HashKey, NameSet};
use std::alloc::Global;

/// What the lines so far tell.
#[derive(Drop)]
pub(crate) struct CircuitParts {
    pub(crate) signals: Listed<Signal>,
    /// The signal number of each register.
    pub(crate) registers: Listed<u32>,
    /// The signal number of each primary output, where it is first mentioned.
    pub(crate) outputs: IndexSet<u32, HashKey>,
}

impl CircuitParts {
    fn new(alloc: Global, key: HashKey) -> CircuitParts
        ensures { (names : List (List ℕ)) → HasParts names result [] }
    {
        CircuitParts {
            signals: Listed::new(alloc),
            registers: Listed::new(alloc),
            outputs: IndexSet::with_hasher(alloc, key),
        }
    }

    // Takes in what a line says.
    fn add(&mut self, alloc: Global, names: &NameSet, said: &Said) -> Result<(), BenchFault>
        requires kind { has_kind (said_by said.now.statement) ≡ true }
        requires few { length self.old.signals ≤ 65536 }
        ensures denoted { OnOk result ((earlier : List (List ℕ)) (line : List ℕ)
            → statement_of line ≡ Some (said_by said.now.statement)
            → HasParts names.now self.old earlier
            → HasParts names.now self.new (earlier ++ line ∷ [])) }
        ensures refused { IfErr result
            (IsUseFault said.now.number names.now (uses_of (said_by said.now.statement))) }
    {
        match &said.statement {
            Statement::Blank => Ok(()),
            Statement::Input(name) => {
                self.add_signal(alloc, name, Kind::Input, FanIn::new(alloc))?;
                Ok(())
            }
            Statement::Output(name) => {
                self.add_output(names, name, said.number)?;
                Ok(())
            }
            Statement::Assign { name, word, inputs } => {
                let fan_in = fan_in(alloc, names, inputs, said.number)?;
                self.add_signal(alloc, name, kind_of(word).unwrap(), fan_in)?;
                Ok(())
            }
        }
    }

    // Puts a signal last, and its number among those of the registers if it is one.
    fn add_signal(
        &mut self,
        alloc: Global,
        name: &[u8],
        kind: Kind,
        fan_in: FanIn,
    ) -> Result<(), NoMemory>
        requires { length self.old.signals ≤ 65536 }
        ensures signals { OnOk result (self.new.signals
            ≡ self.old.signals ++ record { name = name.now; kind = kind; fan_in = fan_in } ∷ []) }
        ensures registers { OnOk result (self.old.registers ≡ registers_of self.old.signals
            → self.new.registers ≡ registers_of self.new.signals) }
        ensures outputs { OnOk result (self.new.outputs.keys ≡ self.old.outputs.keys) }
    {
        let number = self.signals.len() as u32;
        let name = Listed::from_vec(Vec::from_slice(alloc, name)?);
        self.signals.push(Signal { name, kind, fan_in })?;
        if kind.is_register() {
            self.registers.push(number)
        } else {
            Ok(())
        }
    }

    // Takes in that the line of this number mentions a name as a primary output.
    fn add_output(&mut self, names: &NameSet, name: &[u8], number: u32) -> Result<(), BenchFault>
        ensures signals { OnOk result (self.new.signals ≡ self.old.signals) }
        ensures registers { OnOk result (self.new.registers ≡ self.old.registers) }
        ensures outputs { OnOk result (IsSomeAnd (number_of names.now name.now)
            (λ signal. self.new.outputs.keys ≡ insert_key nat_eq self.old.outputs.keys signal)) }
        ensures refused { IfErr result (IsUseFault number names.now (name.now ∷ [])) }
    {
        let Some(signal) = names.number_of(name) else {
            return Err(BenchFault::Undefined(number));
        };
        self.outputs.insert(signal)?;
        Ok(())
    }
}

// The numbers of the names that a signal reads, which the line of this number defines.
fn fan_in(
    alloc: Global,
    names: &NameSet,
    inputs: &InputList,
    number: u32,
) -> Result<FanIn, BenchFault>
    ensures numbers { IfOk result (λ fan_in. fan_in ≡ filter_map (number_of names.now) inputs.now) }
    ensures defined { OnOk result (AreNumbered names.now inputs.now) }
    ensures refused { IfErr result (IsUseFault number names.now inputs.now) }
{
    let mut fan_in = FanIn::new(alloc);
    for name in inputs.names() {
        let Some(signal) = names.number_of(name) else {
            return Err(BenchFault::Undefined(number));
        };
        fan_in.push(signal)?;
    }
    Ok(fan_in)
}

/// The parts of the circuit that a netlist tells, or the first line that uses a name which none
/// defines.
pub(crate) fn read_parts(alloc: Global, reading: &Reading) -> Result<CircuitParts, BenchFault>
    ensures denoted { IfOk result (λ parts.
        HasParts reading.now.names parts (lines_of reading.now.text.now)) }
    ensures refused { IfErr result (IsFaultOf BenchFault.NoMemory
        (first_fault (use_fault reading.now.names) reading.now.text.now)) }
{
    let mut parts = CircuitParts::new(alloc, reading.names.key());
    for place in 0..reading.said.len() {
        parts.add(alloc, &reading.names, &reading.said[place])?;
    }
    Ok(parts)
}
