//! Appending a line: words with one space between them, and a line feed.

ghost use Rattle.std.specs.Prelude.{◌≡◌, ◌<◌, pos, ◌++◌, ◌∷◌, [], length, map, OnOk};
ghost use Rattle.report_text.specs.Vocabulary.{signed_decimal, line_of, count_line, constraint_line, line_for, suffix};

use cts_base::NoMemory;
use cts_model::{Circuit, Constraint};
use itoa::Buffer;

/// Appends the line of a constraint: of a hold constraint the head launches.
///
/// # Errors
///
/// `NoMemory` where memory is refused; what the bytes are then is left open.
pub fn push_line_for(
    out: &mut Vec<u8>,
    circuit: &Circuit,
    constraint: Constraint,
) -> Result<(), NoMemory>
    requires tail { constraint.tail < length circuit.now.registers }
    requires head { constraint.head < length circuit.now.registers }
    ensures { OnOk result (out.new.items
        ≡ out.old.items ++ line_of (line_for circuit.now constraint)) }
{
    let Constraint {
        setup,
        tail,
        head,
        weight,
    } = constraint;
    if setup {
        push_constraint(out, b"setup", circuit, tail, head, weight)
    } else {
        push_constraint(out, b"hold", circuit, head, tail, weight)
    }
}

/// Appends the line of a requirement between two registers, its weight in ticks.
///
/// # Errors
///
/// `NoMemory` where memory is refused; what the bytes are then is left open.
pub fn push_constraint(
    out: &mut Vec<u8>,
    word: &[u8],
    circuit: &Circuit,
    launch: u32,
    capture: u32,
    weight: i128,
) -> Result<(), NoMemory>
    requires launch { launch < length circuit.now.registers }
    requires capture { capture < length circuit.now.registers }
    ensures { OnOk result (out.new.items ≡ out.old.items
        ++ line_of (constraint_line word.now circuit.now launch capture weight)) }
{
    let launch = circuit.register_name(launch as usize);
    let capture = circuit.register_name(capture as usize);
    let mut buffer = Buffer::new();
    let weight = buffer.format(weight).as_bytes();
    push_line(out, word, &[launch, capture, weight])
}

/// Appends the line of a word and a number.
///
/// # Errors
///
/// `NoMemory` where memory is refused; what the bytes are then is left open.
pub fn push_value(out: &mut Vec<u8>, word: &[u8], value: i128) -> Result<(), NoMemory>
    ensures { OnOk result (out.new.items ≡ out.old.items
        ++ line_of (word.now ∷ signed_decimal value ∷ [])) }
{
    let mut buffer = Buffer::new();
    let value = buffer.format(value).as_bytes();
    push_line(out, word, &[value])
}

/// Appends the line of a word and how many of something follow.
///
/// # Errors
///
/// `NoMemory` where memory is refused; what the bytes are then is left open.
pub fn push_count(out: &mut Vec<u8>, word: &[u8], count: usize) -> Result<(), NoMemory>
    ensures { OnOk result (out.new.items
        ≡ out.old.items ++ line_of (count_line word.now count)) }
{
    let mut buffer = Buffer::new();
    let count = buffer.format(count).as_bytes();
    push_line(out, word, &[count])
}

/// Appends the line of a word and others after it.
///
/// # Errors
///
/// `NoMemory` where memory is refused; what the bytes are then is left open.
pub fn push_line(out: &mut Vec<u8>, word: &[u8], others: &[&[u8]]) -> Result<(), NoMemory>
    ensures { OnOk result (out.new.items ≡ out.old.items
        ++ line_of (word.now ∷ map (λ other. other.now) others.now)) }
{
    out.extend_from_slice(word)?;
    for other in others {
        push_word(out, other)?;
    }
    out.push(b'\n')?;
    Ok(())
}

/// Appends a word after others.
pub fn push_word(out: &mut Vec<u8>, word: &[u8]) -> Result<(), NoMemory>
    ensures { OnOk result (out.new.items ≡ out.old.items ++ suffix (word.now ∷ [])) }
{
    out.push(b' ')?;
    out.extend_from_slice(word)?;
    Ok(())
}

/// Appends a number after other words.
pub fn push_number(out: &mut Vec<u8>, number: usize) -> Result<(), NoMemory>
    ensures { OnOk result (out.new.items
        ≡ out.old.items ++ suffix (signed_decimal (pos number) ∷ [])) }
{
    let mut buffer = Buffer::new();
    push_word(out, buffer.format(number).as_bytes())
}

/// Appends a node's number as the first word of a line.
pub fn push_node(out: &mut Vec<u8>, node: usize) -> Result<(), NoMemory>
    ensures { OnOk result (out.new.items ≡ out.old.items ++ signed_decimal (pos node)) }
{
    let mut buffer = Buffer::new();
    out.extend_from_slice(buffer.format(node).as_bytes())?;
    Ok(())
}
