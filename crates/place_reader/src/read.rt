ghost use Rattle.std.specs.Prelude.{◌≡◌, ◌≤◌, ◌↔◌, [], length, map};
ghost use Rattle.place_reader.specs.Vocabulary.{IsToldBy, HasNoHost, places_in, points_from, register_nodes};
ghost use Rattle.place_reader.specs.Taken.{kept_at};

use crate::PlaceFault;
use crate::placing::Placing;
use crate::wanted::register_node;
use cts_base::{Listed, read_lines};
use cts_model::{Circuit, Places, Point};
use std::alloc::Global;

/// Reads a placement in the Bookshelf `.pl` format: where the registers, the source and the host
/// of a circuit stand, in micros. The source and the host stand at the nodes of these names.
///
/// # Errors
///
/// The first fault of the text, or `NoMemory` where memory is refused.
pub fn read_places(
    alloc: Global,
    bytes: &[u8],
    circuit: &Circuit,
    source: &[u8],
    host: &[u8],
) -> Result<Places, PlaceFault>
    requires short { length bytes.now ≤ 16777216 }
    requires host { (host.now ≡ []) ↔ HasNoHost circuit.now }
    ensures { IsToldBy PlaceFault.NoMemory
        (places_in bytes.now circuit.now source.now host.now) result }
{
    let mut placing = Placing::new(alloc, circuit, source, host)?;
    read_lines(&mut placing, bytes)?;
    let registers = register_places(alloc, circuit, host, &placing)?;
    let Some(source) = placing.place_of(source) else {
        return Err(PlaceFault::NoSource);
    };
    Ok(Places { source, registers })
}

// Where the registers stand, or the first that has no place.
fn register_places(
    alloc: Global,
    circuit: &Circuit,
    host: &[u8],
    placing: &Placing,
) -> Result<Listed<Point>, PlaceFault>
    ensures { IsToldBy PlaceFault.NoMemory
        (points_from 0 (map (kept_at placing.now) (register_nodes circuit.now host.now))) result }
{
    let mut points = Listed::new(alloc);
    for register in 0..circuit.registers.len() {
        let Some(point) = placing.place_of(register_node(circuit, host, register)) else {
            return Err(PlaceFault::NoPlace(register as u32));
        };
        points.push(point)?;
    }
    Ok(points)
}
