//! The kinds of files that commands read.

ghost use Rattle.std.specs.Prelude.{◌≡◌, ◌++◌, ◌∷◌, [], ℕ, IsTrue, List, length, All};
ghost use Rattle.cts_program.specs.Vocabulary.{IsTopology, IsOfSize, IsWithinBounds, IsNearMove, DiffersFromFirst, AreServed, IsBare, nothing, bare, timed, placed, reported, joined, moving};
ghost use Rattle.failure_lines.specs.declared.file_kind.FileKind.TheVariants as kinds;

use crate::reading::document::Document;
use crate::reading::placement::placement_failure;
use bench_reader::read_bench;
use cts_base::Listed;
use cts_engine::{Denoted, accept_table};
use cts_model::{Circuit, Problem, Report, Tech, Topology, used_kinds};
use delay_tables::read_tech;
use failure_lines::{Failure, FileKind, tech_failure};
use move_session::{Move, read_moves};
use place_reader::read_places;
use report_text::read_report;
use std::alloc::Global;
use topology_file::read_topology;

/// A netlist.
#[derive(Drop)]
pub struct Netlist;

impl Document for Netlist {
    type Value = Circuit;

    ghost kind = { λ _. kinds.Bench };

    ghost before = { λ _. nothing };

    ghost after = { λ _ circuit. bare circuit [] };

    ghost ready = { λ _. Unit {0} };

    ghost keeps = { λ _. IsBare };

    fn file_kind(&self) -> FileKind {
        FileKind::Bench
    }

    fn read(self, alloc: Global, bytes: &[u8]) -> Result<Circuit, Failure> {
        Ok(read_bench(alloc, bytes)?)
    }
}

/// The delay table of a netlist's circuit.
#[derive(Drop)]
pub struct DelayTable {
    pub circuit: Circuit,
}

impl Document for DelayTable {
    type Value = Denoted;

    ghost kind = { λ _. kinds.Tech };

    ghost before = { λ table. bare table.circuit [] };

    ghost after = { λ _ denoted. timed denoted.circuit denoted.tech };

    ghost ready = { λ table. IsBare table.circuit };

    ghost keeps = { λ _ denoted. AreServed denoted.circuit denoted.tech };

    fn file_kind(&self) -> FileKind {
        FileKind::Tech
    }

    fn read(self, alloc: Global, bytes: &[u8]) -> Result<Denoted, Failure> {
        Ok(accept_table(alloc, self.circuit, bytes)?)
    }
}

/// The delay table of a corner, which has this number, after those of other corners.
#[derive(Drop)]
pub struct CornerTable<'a> {
    pub number: u32,
    pub circuit: &'a Circuit,
    pub techs: &'a [Tech],
}

impl<'a> Document for CornerTable<'a> {
    type Value = Tech;

    ghost kind = { λ table. kinds.Corner table.number };

    ghost before = { λ table. bare table.circuit.now table.techs.now };

    ghost after = { λ table tech. bare table.circuit.now (table.techs.now ++ tech ∷ []) };

    ghost ready = { λ _. Unit {0} };

    ghost keeps = { λ _ _. Unit {0} };

    fn file_kind(&self) -> FileKind {
        FileKind::Corner(self.number)
    }

    fn read(self, alloc: Global, bytes: &[u8]) -> Result<Tech, Failure> {
        let tech = match read_tech(alloc, bytes, &used_kinds(self.circuit)) {
            Ok(tech) => tech,
            Err(fault) => return Err(tech_failure(FileKind::Corner(self.number), fault)),
        };
        if differs_from_first(self.techs, &tech) {
            return Err(Failure::CornerHost(self.number));
        }
        Ok(tech)
    }
}

// Whether one of the first table and this one gives the host a place, and the other doesn't.
fn differs_from_first(techs: &[Tech], tech: &Tech) -> bool
    ensures yes { IsTrue result → DiffersFromFirst techs.now tech.now }
    ensures no { DiffersFromFirst techs.now tech.now → IsTrue result }
{
    match techs {
        [first, ..] => first.host.is_empty() != tech.host.is_empty(),
        [] => false,
    }
}

/// The placement of a circuit with such delays.
#[derive(Drop)]
pub struct Placement {
    pub denoted: Denoted,
}

impl Document for Placement {
    type Value = Problem;

    ghost kind = { λ _. kinds.Placement };

    ghost before = { λ placement. timed placement.denoted.circuit placement.denoted.tech };

    ghost after = { λ _. placed };

    ghost ready = { λ placement. AreServed placement.denoted.circuit placement.denoted.tech };

    ghost keeps = { λ _ _. Unit {0} };

    fn file_kind(&self) -> FileKind {
        FileKind::Placement
    }

    fn read(self, alloc: Global, bytes: &[u8]) -> Result<Problem, Failure> {
        let Denoted { circuit, tech } = self.denoted;
        let (source, host) = (tech.source.as_slice(), tech.host.as_slice());
        match read_places(alloc, bytes, &circuit, source, host) {
            Ok(places) => Ok(Problem {
                circuit,
                tech,
                places,
            }),
            Err(fault) => Err(placement_failure(alloc, &circuit, fault)),
        }
    }
}

/// A report of a problem. One that is too long or has a fault isn't shown.
#[derive(Drop)]
pub struct ReportOf<'a> {
    pub problem: &'a Problem,
}

impl<'a> Document for ReportOf<'a> {
    type Value = Report;

    ghost kind = { λ _. kinds.Report };

    ghost before = { λ document. placed document.problem.now };

    ghost after = { λ document. reported document.problem.now };

    ghost ready = { λ _. Unit {0} };

    ghost keeps = { λ document report. IsOfSize document.problem.now.circuit report
        × IsWithinBounds document.problem.now.tech report };

    fn file_kind(&self) -> FileKind {
        FileKind::Report
    }

    fn read(self, alloc: Global, bytes: &[u8]) -> Result<Report, Failure> {
        Ok(read_report(alloc, bytes, &self.problem.circuit, &self.problem.tech)?)
    }
}

/// A topology of a problem's registers.
#[derive(Drop)]
pub struct TopologyOf<'a> {
    pub problem: &'a Problem,
}

impl<'a> Document for TopologyOf<'a> {
    type Value = Topology;

    ghost kind = { λ _. kinds.Topology };

    ghost before = { λ document. placed document.problem.now };

    ghost after = { λ document. joined document.problem.now };

    ghost ready = { λ _. Unit {0} };

    ghost keeps = { λ document topology.
        IsTopology (length document.problem.now.circuit.registers) topology.merges };

    fn file_kind(&self) -> FileKind {
        FileKind::Topology
    }

    fn read(self, alloc: Global, bytes: &[u8]) -> Result<Topology, Failure> {
        Ok(read_topology(alloc, bytes, &self.problem.circuit)?)
    }
}

/// Moves of a problem's registers.
#[derive(Drop)]
pub struct MovesOf<'a> {
    pub problem: &'a Problem,
}

impl<'a> Document for MovesOf<'a> {
    type Value = Listed<Move>;

    ghost kind = { λ _. kinds.Moves };

    ghost before = { λ document. placed document.problem.now };

    ghost after = { λ document. moving document.problem.now };

    ghost ready = { λ _. Unit {0} };

    ghost keeps = { λ document.
        All (IsNearMove (length document.problem.now.circuit.registers)) };

    fn file_kind(&self) -> FileKind {
        FileKind::Moves
    }

    fn read(self, alloc: Global, bytes: &[u8]) -> Result<Listed<Move>, Failure> {
        Ok(read_moves(alloc, bytes, &self.problem.circuit)?)
    }
}
