//! The words of a command line, and the command that they mean.

ghost use Rattle.std.specs.Prelude.{map, string_bytes, IfOk, IsErrOf, IsOkUnless};
ghost use Rattle.command_line.specs.Commands.{IsCommand, IsSame};

use crate::parse::parsed;
use crate::plain_words::plain_form;
use std::alloc::Global;

/// What the words of a command line ask for, with the values of the options.
#[derive(Clone, Copy, Debug, Drop, PartialEq)]
pub enum Command<'a> {
    /// The least period at equal arrivals of a netlist, with a delay table or the built-in one.
    Zero {
        bench: &'a str,
        tech: Option<&'a str>,
    },
    /// The least period that any arrivals allow, of a netlist with a delay table.
    Period {
        bench: &'a str,
        tech: &'a str,
    },
    /// That period, and when the clock is to reach each register.
    Schedule {
        bench: &'a str,
        tech: &'a str,
    },
    /// The clock tree that realises that schedule, of registers with a placement.
    Synth {
        bench: &'a str,
        tech: &'a str,
        pl: &'a str,
    },
    /// Whether a report, whoever made it, shows what it says of that problem.
    Check {
        bench: &'a str,
        tech: &'a str,
        pl: &'a str,
        report: &'a str,
    },
    /// The clock tree of the demonstration with this number of registers and this seed, both given
    /// as decimal digits.
    Demo {
        registers: &'a str,
        seed: &'a str,
    },
    /// What every setup and hold inequality of a netlist with a delay table has to spare at this
    /// period, which is given as a fraction.
    Margin {
        bench: &'a str,
        tech: &'a str,
        period: &'a str,
    },
    /// The clock tree that realises that schedule by a topology that is given.
    Embed {
        bench: &'a str,
        tech: &'a str,
        pl: &'a str,
        topology: &'a str,
    },
    /// How long that clock tree is, and how long after each of some moves of registers.
    Moves {
        bench: &'a str,
        tech: &'a str,
        pl: &'a str,
        moves: &'a str,
    },
    /// The least period and the least schedule that serve several delay tables, one for each
    /// corner.
    Corners {
        bench: &'a str,
        tables: &'a [String],
    },
}

/// Why words aren't read as a command.
#[derive(Clone, Copy, Debug, Drop, PartialEq)]
pub enum WordsFault {
    /// The words mean no command.
    Usage,
    /// Memory was refused.
    NoMemory,
}

/// The command that the words after the program's name mean. They are judged without memory, and
/// only words that mean a command are parsed.
///
/// # Errors
///
/// `Usage` exactly where the words mean no command; `NoMemory` where there is none to parse those
/// that do.
pub fn read_command<'a>(alloc: Global, words: &'a [String]) -> Result<Command<'a>, WordsFault>
    ensures ok { IfOk result (IsCommand (map string_bytes words.now)) }
    ensures same { (command : Command) → IsCommand (map string_bytes words.now) command
        → IfOk result (IsSame command) }
    ensures usage { IsErrOf result WordsFault.Usage → (command : Command)
        → IsCommand (map string_bytes words.now) command → ⊥ }
    ensures read { (command : Command) → IsCommand (map string_bytes words.now) command
        → IsOkUnless result WordsFault.NoMemory }
    ensures memory { IsErrOf result WordsFault.NoMemory
        → (command : Command) × IsCommand (map string_bytes words.now) command }
{
    let Some((form, tables)) = plain_form(words) else {
        return Err(WordsFault::Usage);
    };
    match parsed(alloc, form, words, tables) {
        Ok(command) => Ok(command),
        // Plain words are refused for want of memory alone.
        Err(_) => Err(WordsFault::NoMemory),
    }
}
