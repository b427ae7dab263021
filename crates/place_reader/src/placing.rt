ghost use Rattle.std.specs.Prelude.{◌≡◌, [], length, replicate, None, OnOk, IfOk, IfErr};
ghost use Rattle.place_reader.specs.Vocabulary.{IsFaultOf, AreSameNames, place_entry_fault, place_line_fault, is_among, wanted_nodes, node_said, said_by};
ghost use Rattle.place_reader.specs.declared.fault.PlaceFault.TheVariants as fault;
ghost use Rattle.cts_model.specs.placement.PlaceLines as format;

use crate::PlaceFault;
use crate::entry::{Entry, Node};
use crate::wanted::wanted_nodes;
use cts_base::{Line, LineFormat, Listed, NoMemory};
use cts_model::{Circuit, Point, read_point};
use name_set::NameSet;
use std::alloc::Global;

/// What the lines so far place.
#[derive(Drop)]
pub(crate) struct Placing<'a> {
    wanted: NameSet<'a>,
    // Where each wanted node stands, by its number, in micros, if a line so far says it.
    points: Listed<Option<Point>>,
    // Whether a line so far isn't blank.
    begun: bool,
    ghost numbered: { length points ≡ length wanted },
}

impl<'a> LineFormat<'a> for Placing<'a> {
    ghost use Rattle.place_reader.specs.Taken.{HasTaken};

    type Fault = PlaceFault;

    ghost no_memory = { fault.NoMemory };

    ghost fault_of = { λ start. place_line_fault (is_among start.wanted) };

    ghost has_read = { HasTaken };

    fn read_line(&mut self, line: Line<'a>) -> Result<(), PlaceFault> {
        let Some(entry) = Entry::of(self.begun, line) else {
            return Err(PlaceFault::BadLine(line.number));
        };
        self.take(line.number, entry)
    }
}

impl<'a> Placing<'a> {
    ghost use Rattle.place_reader.specs.Taken.{HasTaken, TakesLine, kept_at};

    /// Nothing is placed of what is wanted.
    pub(crate) fn new(
        alloc: Global,
        circuit: &'a Circuit,
        source: &'a [u8],
        host: &'a [u8],
    ) -> Result<Placing<'a>, NoMemory>
        ensures { IfOk result (λ placing.
            AreSameNames placing.wanted (wanted_nodes circuit.now source.now host.now)
            × HasTaken placing placing []) }
    {
        let wanted = wanted_nodes(alloc, circuit, source, host)?;
        let points = no_points(alloc, wanted.len())?;
        Ok(Placing {
            wanted,
            points,
            begun: false,
        })
    }

    /// Where a node stands by the lines so far.
    pub(crate) fn place_of(&self, name: &[u8]) -> Option<Point>
        ensures { result ≡ kept_at self.now name.now }
    {
        let number = self.wanted.number_of(name)?;
        self.points.as_slice()[number as usize]
    }

    // Takes in what the line of this number is, if nothing is wrong with it.
    fn take(&mut self, number: u32, entry: Entry) -> Result<(), PlaceFault>
        ensures wanted { self.new.wanted ≡ self.old.wanted }
        ensures taken { OnOk result (TakesLine self.old self.new number (said_by entry.entry)) }
        ensures faulty { IfErr result (IsFaultOf fault.NoMemory (place_entry_fault
            (is_among self.old.wanted) (kept_at self.old) number (Some (said_by entry.entry)))) }
    {
        match entry {
            Entry::Blank => Ok(()),
            Entry::Header => {
                self.begun = true;
                Ok(())
            }
            Entry::Stands(node) => self.take_node(number, node),
        }
    }

    // The same for a node's line; a node that isn't wanted is passed over.
    fn take_node(&mut self, number: u32, node: Node) -> Result<(), PlaceFault>
        ensures wanted { self.new.wanted ≡ self.old.wanted }
        ensures taken { OnOk result
            (TakesLine self.old self.new number (format.Stands (node_said node.entry))) }
        ensures faulty { IfErr result (IsFaultOf fault.NoMemory (place_entry_fault
            (is_among self.old.wanted) (kept_at self.old) number
            (Some (format.Stands (node_said node.entry))))) }
    {
        self.begun = true;
        let Some(at) = self.wanted.number_of(node.name) else {
            return Ok(());
        };
        let point = match read_point(node.x, node.y) {
            Ok(point) => point,
            Err(fault) => return Err(PlaceFault::BadNumber(number, fault)),
        };
        if self.points.as_slice()[at as usize].is_some() {
            return Err(PlaceFault::PlaceTwice(number));
        }
        self.points.set(at as usize, Some(point));
        Ok(())
    }
}

// So many nodes without a place.
fn no_points(alloc: Global, count: usize) -> Result<Listed<Option<Point>>, NoMemory>
    ensures { IfOk result (λ points. points ≡ replicate count None) }
{
    let mut points = Listed::new(alloc);
    for _ in 0..count {
        points.push(None)?;
    }
    Ok(points)
}
