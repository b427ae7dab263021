//! Appending the lines of a report's tree: its merges, its nodes, and what shows their reaches.

ghost use Rattle.std.specs.Prelude.{◌≡◌, ◌<◌, ◌^◌, ◌++◌, ◌∷◌, ◌≤ℤ◌, ◌<ℤ◌, [], pos, length, OnOk, slice_index_or};
ghost use Rattle.report_text.specs.Vocabulary.{IsBelow, IsPointBelow, line_of, text_of, IsSmallWire, ShowsAmong, length_text, lines_below, merge_line_at, no_wire, node_line_at, point_words, show_words, source_line, tree_lines, wire_words, suffix, HasSmallLengths, wire_line, Root};

use crate::line::{push_count, push_node, push_number, push_word};
use crate::report::Printed;
use cts_base::{NoMemory, push_quotient};
use cts_model::{Circuit, Point, Report, Show, Wire};

/// Appends the lines from the merges to the last.
pub fn push_tree(out: &mut Vec<u8>, printed: &Printed) -> Result<(), NoMemory>
    ensures { OnOk result (out.new.items
        ≡ out.old.items ++ text_of (tree_lines printed.now.circuit.now printed.now.report.now)) }
{
    push_count(out, b"merges", printed.report.topology.merges.len())?;
    push_merges(out, printed)?;
    push_source(out, printed)?;
    push_count(out, b"nodes", printed.report.tree.length.len())?;
    push_nodes(out, printed)?;
    push_total(out, printed.report)?;
    Ok(())
}

// Appends the line of each merge.
fn push_merges(out: &mut Vec<u8>, printed: &Printed) -> Result<(), NoMemory>
    ensures { OnOk result (out.new.items ≡ out.old.items ++ text_of (lines_below
        (merge_line_at printed.now.circuit.now printed.now.report.now)
        (length printed.now.report.now.topology.merges))) }
{
    for place in 0..printed.report.topology.merges.len() {
        push_merge(out, printed, place)?;
    }
    Ok(())
}

// Appends the line of a merge: what it joins, its reach and what shows it.
fn push_merge(out: &mut Vec<u8>, printed: &Printed, place: usize) -> Result<(), NoMemory>
    requires within { place < length printed.now.report.now.topology.merges }
    ensures { OnOk result (out.new.items ≡ out.old.items
        ++ line_of (merge_line_at printed.now.circuit.now printed.now.report.now place)) }
{
    let node = printed.report.schedule.at.len() + place;
    let merge = printed.report.topology.merges.as_slice()[place];
    push_node(out, node)?;
    push_number(out, merge.first as usize)?;
    push_number(out, merge.second as usize)?;
    push_length(out, printed, printed.report.tree.reach.as_slice()[node])?;
    push_shown(out, printed.circuit, show_at(printed, place))?;
    out.push(b'\n')?;
    Ok(())
}

// Appends the line of the source: its reach and what shows it.
fn push_source(out: &mut Vec<u8>, printed: &Printed) -> Result<(), NoMemory>
    ensures { OnOk result (out.new.items
        ≡ out.old.items ++ line_of (source_line printed.now.circuit.now printed.now.report.now)) }
{
    let node = 2 * printed.report.schedule.at.len() - 1;
    let merges = printed.report.topology.merges.len();
    out.extend_from_slice(b"source")?;
    push_length(out, printed, printed.report.tree.reach.as_slice()[node])?;
    push_shown(out, printed.circuit, show_at(printed, merges))?;
    out.push(b'\n')?;
    Ok(())
}

// What shows the reach of a merge, or after all of them that of the source.
fn show_at(printed: &Printed, place: usize) -> Show
    requires { place < length printed.now.report.now.shows }
    ensures { result ≡ slice_index_or printed.now.report.now.shows place Root }
{
    printed.report.shows.as_slice()[place]
}

// Appends what shows a reach.
fn push_shown(out: &mut Vec<u8>, circuit: &Circuit, show: Show) -> Result<(), NoMemory>
    requires show { ShowsAmong (length circuit.now.registers) show }
    ensures { OnOk result (out.new.items
        ≡ out.old.items ++ suffix (show_words circuit.now show)) }
{
    match show {
        Show::Pair(first, second) => {
            push_word(out, b"pair")?;
            push_word(out, circuit.register_name(first as usize))?;
            push_word(out, circuit.register_name(second as usize))
        }
        Show::Sink(register) => {
            push_word(out, b"sink")?;
            push_word(out, circuit.register_name(register as usize))
        }
        Show::Root => push_word(out, b"root"),
    }
}

// Appends the line of each node but the source.
fn push_nodes(out: &mut Vec<u8>, printed: &Printed) -> Result<(), NoMemory>
    ensures { OnOk result (out.new.items ≡ out.old.items ++ text_of
        (lines_below (node_line_at printed.now.circuit.now printed.now.report.now)
        (length printed.now.report.now.tree.length))) }
{
    for node in 0..printed.report.tree.length.len() {
        push_node_line(out, printed, node)?;
    }
    Ok(())
}

// Appends the line of a node: its place, the length of its edge and the drawn wire.
fn push_node_line(out: &mut Vec<u8>, printed: &Printed, node: usize) -> Result<(), NoMemory>
    requires within { node < length printed.now.report.now.tree.length }
    ensures { OnOk result (out.new.items ≡ out.old.items
        ++ line_of (node_line_at printed.now.circuit.now printed.now.report.now node)) }
{
    push_node(out, node)?;
    push_point(out, printed, printed.report.tree.place.as_slice()[node])?;
    push_length(out, printed, printed.report.tree.length.as_slice()[node])?;
    push_wire(out, printed, wire_at(printed, node))?;
    out.push(b'\n')?;
    Ok(())
}

// The drawn wire of a node's edge.
fn wire_at(printed: &Printed, node: usize) -> Wire
    requires { node < length printed.now.report.now.wires }
    ensures value { result ≡ slice_index_or printed.now.report.now.wires node no_wire }
    ensures small { IsSmallWire result }
{
    printed.report.wires.as_slice()[node]
}

// Appends a drawn wire: how many points it has, and the points.
fn push_wire(out: &mut Vec<u8>, printed: &Printed, wire: Wire) -> Result<(), NoMemory>
    requires wire { IsSmallWire wire }
    ensures { OnOk result (out.new.items
        ≡ out.old.items ++ suffix (wire_words printed.now.report.now wire)) }
{
    push_number(out, wire.used as usize)?;
    for point in wire.corners.split_at(wire.used as usize).0 {
        push_point(out, printed, *point)?;
    }
    Ok(())
}

// Appends the two coordinates of a point.
fn push_point(out: &mut Vec<u8>, printed: &Printed, point: Point) -> Result<(), NoMemory>
    requires point { IsPointBelow (10 ^ 32) point }
    ensures { OnOk result (out.new.items
        ≡ out.old.items ++ suffix (point_words printed.now.report.now point)) }
{
    push_length(out, printed, point.x)?;
    push_length(out, printed, point.y)
}

/// Appends the last line of a report, the length of all edges in length units.
///
/// # Errors
///
/// `NoMemory` where memory is refused; what the bytes are then is left open.
pub fn push_total(out: &mut Vec<u8>, report: &Report) -> Result<(), NoMemory>
    requires small { HasSmallLengths report.now }
    ensures { OnOk result (out.new.items
        ≡ out.old.items ++ line_of (wire_line report.now.grid report.now.total)) }
{
    push_wire_length(out, report.grid, report.total)
}

/// Appends the line of a length of wire, given in grid steps, in length units, which have so many
/// steps.
///
/// # Errors
///
/// `NoMemory` where memory is refused; what the bytes are then is left open.
pub fn push_wire_length(out: &mut Vec<u8>, grid: i128, steps: i128) -> Result<(), NoMemory>
    requires some_grid { pos 1 ≤ℤ grid }
    requires small_grid { grid <ℤ pos (10 ^ 37) }
    requires steps { IsBelow (10 ^ 36) steps }
    ensures { OnOk result (out.new.items ≡ out.old.items ++ line_of (wire_line grid steps)) }
{
    out.extend_from_slice(b"wire ")?;
    push_quotient(out, steps, grid)?;
    out.push(b'\n')?;
    Ok(())
}

// Appends a length, given in grid steps, in length units.
fn push_length(out: &mut Vec<u8>, printed: &Printed, steps: i128) -> Result<(), NoMemory>
    requires { IsBelow (10 ^ 36) steps }
    ensures { OnOk result (out.new.items
        ≡ out.old.items ++ suffix (length_text printed.now.report.now steps ∷ [])) }
{
    out.push(b' ')?;
    push_quotient(out, steps, printed.report.grid)?;
    Ok(())
}
