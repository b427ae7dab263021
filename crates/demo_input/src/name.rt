//! Appending the name of a signal.

ghost use Rattle.std.specs.Prelude.{◌≡◌, ◌++◌, OnOk, decimal};
ghost use Rattle.demo_input.specs.Names.{numbered_name};

use cts_base::NoMemory;
use itoa::Buffer;

/// Appends a letter and a number.
pub fn push_name(out: &mut Vec<u8>, letter: &[u8], number: u32) -> Result<(), NoMemory>
    ensures { OnOk result (out.new.items ≡ out.old.items ++ numbered_name letter.now number) }
{
    out.extend_from_slice(letter)?;
    push_number(out, number)
}

/// Appends a number.
pub fn push_number(out: &mut Vec<u8>, number: u32) -> Result<(), NoMemory>
    ensures { OnOk result (out.new.items ≡ out.old.items ++ decimal number) }
{
    let mut buffer = Buffer::new();
    out.extend_from_slice(buffer.format(number).as_bytes())?;
    Ok(())
}
