//! Putting a report together from what its lines tell.

ghost use Rattle.std.specs.Prelude.{◌≡◌, ◌^◌, ◌++◌, ◌∷◌, [], All, IfOk, map};
ghost use Rattle.report_text.specs.Vocabulary.{IsBelow, IsSmallPeriod, begin_of, report_denoted, sink_reach};

use crate::sections::Parts;
use cts_base::{Listed, NoMemory};
use cts_model::{Grid, Merge, Point, Report, Schedule, Show, Slack, Tech, Topology, Tree, Wire};
use std::alloc::Global;

/// The report that the parts of a text make up.
pub(crate) fn report_of(alloc: Global, tech: &Tech, parts: Parts) -> Result<Report, NoMemory>
    requires period { IsSmallPeriod parts.heading.period }
    requires arrivals { All (λ row. IsBelow (10 ^ 19) row.arrival) parts.body.timings }
    ensures { IfOk result (λ report. report ≡ report_denoted tech.now parts) }
{
    let assembly = Assembly {
        tech,
        parts: &parts,
    };
    let columns = assembly.columns(alloc)?;
    let Parts {
        heading,
        shown,
        body,
    } = parts;
    let period = heading.period;
    let grid = Grid { period, tech };
    Ok(Report {
        version: heading.version,
        period,
        shown: shown.shown,
        paths: shown.paths,
        schedule: Schedule {
            den: period.den(),
            at: columns.at,
        },
        slacks: columns.slacks,
        leads: body.leads,
        grid: grid.steps_of_unit(),
        topology: Topology {
            merges: columns.merges,
        },
        tree: columns.tree,
        shows: columns.shows,
        wires: columns.wires,
        total: body.total.length,
    })
}

/// What the rows of a report tell, column by column.
#[derive(Drop)]
pub(crate) struct Columns {
    at: Listed<i128>,
    slacks: Listed<Slack>,
    merges: Listed<Merge>,
    shows: Listed<Show>,
    tree: Tree,
    wires: Listed<Wire>,
}

// The parts of a report, for the table that it was made for.
#[derive(Clone, Copy)]
struct Assembly<'a> {
    tech: &'a Tech,
    parts: &'a Parts,
    ghost small: { All (λ row. IsBelow (10 ^ 19) row.arrival) parts.now.body.timings },
}

impl Assembly<'_> {
    // The columns of these parts.
    fn columns(&self, alloc: Global) -> Result<Columns, NoMemory>
        ensures at { IfOk result (λ all.
            all.at ≡ (report_denoted self.now.tech.now self.now.parts.now).schedule.at) }
        ensures slacks { IfOk result (λ all.
            all.slacks ≡ (report_denoted self.now.tech.now self.now.parts.now).slacks) }
        ensures merges { IfOk result (λ all.
            all.merges ≡ (report_denoted self.now.tech.now self.now.parts.now).topology.merges) }
        ensures shows { IfOk result (λ all.
            all.shows ≡ (report_denoted self.now.tech.now self.now.parts.now).shows) }
        ensures tree { IfOk result (λ all.
            all.tree ≡ (report_denoted self.now.tech.now self.now.parts.now).tree) }
        ensures wires { IfOk result (λ all.
            all.wires ≡ (report_denoted self.now.tech.now self.now.parts.now).wires) }
    {
        let timings = self.parts.body.timings.as_slice();
        let merged = self.parts.body.merged.as_slice();
        let placed = self.parts.body.placed.as_slice();
        let at: Vec<i128> = timings.iter().map(|row| row.arrival).collect(alloc)?;
        let slacks: Vec<Slack> = timings.iter().map(|row| row.slack).collect(alloc)?;
        let merges: Vec<Merge> = merged.iter().map(|row| row.merge).collect(alloc)?;
        let mut shows: Vec<Show> = merged.iter().map(|row| row.show).collect(alloc)?;
        shows.push(self.parts.body.source.show)?;
        let wires: Vec<Wire> = placed.iter().map(|row| row.wire).collect(alloc)?;
        let tree = self.tree(alloc, begin_of(&wires))?;
        Ok(Columns {
            at: Listed::from_vec(at),
            slacks: Listed::from_vec(slacks),
            merges: Listed::from_vec(merges),
            shows: Listed::from_vec(shows),
            tree,
            wires: Listed::from_vec(wires),
        })
    }

    // The tree of these parts, where the source stands here.
    fn tree(&self, alloc: Global, source: Point) -> Result<Tree, NoMemory>
        ensures { IfOk result (λ tree. tree ≡ record
            (report_denoted self.now.tech.now self.now.parts.now).tree {
              place = map (λ row. row.place) self.now.parts.now.body.placed ++ source ∷ [];
            }) }
    {
        let merged = self.parts.body.merged.as_slice();
        let placed = self.parts.body.placed.as_slice();
        let merges: Vec<i128> = merged.iter().map(|row| row.reach).collect(alloc)?;
        let mut reach = self.sink_reaches(alloc)?;
        reach.extend_from_slice(&merges)?;
        reach.push(self.parts.body.source.reach)?;
        let mut place: Vec<Point> = placed.iter().map(|row| row.place).collect(alloc)?;
        place.push(source)?;
        let length: Vec<i128> = placed.iter().map(|row| row.length).collect(alloc)?;
        Ok(Tree {
            reach: Listed::from_vec(reach),
            place: Listed::from_vec(place),
            length: Listed::from_vec(length),
        })
    }

    // The reaches of the sinks, which are their offsets.
    fn sink_reaches(&self, alloc: Global) -> Result<Vec<i128>, NoMemory>
        ensures { IfOk result (λ reaches. reaches.items ≡ map (sink_reach self.now.tech.now)
            (map (λ row. row.arrival) self.now.parts.now.body.timings)) }
    {
        let mut reaches = Vec::new(alloc);
        for row in self.parts.body.timings.as_slice() {
            reaches.push(self.tech.offset(row.arrival))?;
        }
        Ok(reaches)
    }
}

// Where the wire of the root begins, the last of the wires.
fn begin_of(wires: &[Wire]) -> Point
    ensures { result ≡ begin_of wires.now }
{
    match wires.last() {
        Some(wire) => wire.corners[0],
        None => Point { x: 0, y: 0 },
    }
}
