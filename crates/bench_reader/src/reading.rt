ghost use Rattle.std.specs.Prelude.{◌≡◌, ◌≤◌, ◌++◌, IfErr, IfOk, OnOk, Some, length};
ghost use Rattle.bench_reader.specs.Vocabulary.{option_map, option_to_list, IsFaultOf, first_fault, BenchFault, bench_line_fault, kept_of, unless_blank, said_by};

use crate::BenchFault;
use crate::definitions::Definitions;
use crate::said::{Reading, Said};
use crate::statement::Statement;
use cts_base::{Line, LineFormat, read_lines};
use std::alloc::Global;

// What the lines so far define, and what they say.
#[derive(Drop)]
struct Statements<'a> {
    definitions: Definitions<'a>,
    said: Vec<Said<'a>>,
}

impl<'a> LineFormat<'a> for Statements<'a> {
    ghost use Rattle.bench_reader.specs.Said.{HasRead};
    ghost use Rattle.bench_reader.specs.declared.fault.BenchFault.TheVariants.{NoMemory};

    type Fault = BenchFault;

    ghost no_memory = { NoMemory };

    ghost fault_of = { λ _. bench_line_fault };

    ghost has_read = { λ _ statements. HasRead statements.definitions statements.said.items };

    fn read_line(&mut self, line: Line<'a>) -> Result<(), BenchFault> {
        let Some(statement) = Statement::of(line) else {
            return Err(BenchFault::BadLine(line.number));
        };
        self.definitions.add(&statement, line.number)?;
        keep(&mut self.said, line.number, statement)
    }
}

// Keeps what the line of this number says, unless it is blank.
fn keep<'a>(
    said: &mut Vec<Said<'a>>,
    number: u32,
    statement: Statement<'a>,
) -> Result<(), BenchFault>
    ensures kept { OnOk result (kept_of said.new.items ≡ kept_of said.old.items
        ++ option_to_list
        (option_map (λ it. (number, it)) (unless_blank (Some (said_by statement.entry))))) }
    ensures refused { IfErr result (λ fault. fault ≡ BenchFault.NoMemory) }
{
    if !statement.is_blank() {
        said.push(Said { number, statement })?;
    }
    Ok(())
}

/// Reads the lines of a netlist one after the other, or finds the first that has a fault.
pub(crate) fn read_statements(alloc: Global, bytes: &[u8]) -> Result<Reading<'_>, BenchFault>
    requires { length bytes.now ≤ 16777216 }
    ensures text { IfOk result (λ reading. reading.text.now ≡ bytes.now) }
    ensures refused { IfErr result
        (IsFaultOf BenchFault.NoMemory (first_fault bench_line_fault bytes.now)) }
{
    let mut statements = Statements {
        definitions: Definitions::new(alloc, bytes)?,
        said: Vec::new(alloc),
    };
    read_lines(&mut statements, bytes)?;
    Ok(Reading {
        text: bytes,
        names: statements.definitions.names,
        said: statements.said,
    })
}
