ghost use Rattle.std.specs.Prelude.{◌≡◌, ◌<◌, ◌≤◌, ◌++◌, ◌∷◌, [], All, IfOk, OnOk, length};
ghost use Rattle.path_delays.specs.Vocabulary.{Circuit, AreCapturedBy, IsBounded, IsCapture, IsFoundIn, ListsCaptures, registers_of, AreGathered, HasCaptureRoom, IsCapturingOf};

use crate::captures::{captured_signals, capturers};
use crate::lanes::{LANES, Lane, LaneSums};
use crate::number_set::NumberSet;
use crate::sums::Sums;
use crate::walk::Walk;
use cts_base::NoMemory;
use cts_model::Circuit;
use gate_order::Groups;
use std::alloc::Global;

/// The registers that capture what a walk reached, in room that is used again from walk to walk.
#[derive(Drop)]
pub(crate) struct Capturing {
    /// The registers that capture each signal.
    pub(crate) capturers: Groups,
    /// The signals that some register captures.
    pub(crate) captured: NumberSet,
    /// Those of them that the walk reached and that aren't looked at.
    pub(crate) reached: NumberSet,
    /// The registers that capture one that was looked at.
    pub(crate) found: NumberSet,
    /// The registers that capture one that the walk reached, in ascending order.
    pub(crate) registers: Vec<u32>,
    /// What the walk found at what each of these captures.
    pub(crate) captures: CaptureList,
}

/// What a walk found at what some registers capture.
#[derive(Drop)]
pub(crate) struct CaptureList {
    /// Each register with where that stands.
    pub(crate) list: Vec<Capture>,
    /// What it found at several signals together.
    pub(crate) merged: Vec<LaneSums>,
}

/// Where what a walk found at what a register captures stands.
#[derive(Clone, Copy, Debug)]
pub(crate) enum Found {
    /// At a single signal, which the walk reached.
    Single(u32),
    /// At this place among what it found at several signals.
    Merged(usize),
}

/// What a walk found at what a register captures.
#[derive(Clone, Copy, Debug)]
pub(crate) struct Capture {
    /// The register.
    pub(crate) register: u32,
    /// Where it stands.
    pub(crate) found: Found,
    /// False only in lanes in which the walk found nothing.
    pub(crate) lanes: [bool; 16],
}

/// Lists what a walk found at what each of these registers captures.
pub(crate) fn list_captures(
    captures: &mut CaptureList,
    walk: &Walk,
    circuit: &Circuit,
    registers: &[u32],
) -> Result<(), NoMemory>
    requires within { All (λ register. register < length circuit.now.registers) registers.now }
    requires bounded { IsBounded walk.now.reach }
    ensures registers { OnOk result (registers_of captures.new.list.items ≡ registers.now) }
    ensures each { OnOk result (ListsCaptures circuit.now walk.now captures.new) }
{
    captures.list.clear();
    captures.merged.clear();
    for register in registers {
        let captured = circuit
            .register_signal(*register as usize)
            .fan_in
            .as_slice();
        captures.push(walk, *register, captured)?;
    }
    Ok(())
}

impl CaptureList {
    // Puts what a walk found at the signals that a register captures last.
    fn push(&mut self, walk: &Walk, register: u32, captured: &[u32]) -> Result<(), NoMemory>
        requires { IsBounded walk.now.reach }
        ensures register { OnOk result
            (registers_of self.new.list.items ≡ registers_of self.old.list.items ++ register ∷ []) }
        ensures each { OnOk result ((circuit : Circuit) → register < length circuit.registers
            → AreCapturedBy circuit register captured.now
            → ListsCaptures circuit walk.now self.old → ListsCaptures circuit walk.now self.new) }
    {
        match captured {
            [signal] if walk.reached().contains(*signal) => self.list.push(Capture {
                register,
                found: Found::Single(*signal),
                lanes: walk.lanes_to(*signal),
            })?,
            _ => {
                let place = self.merged.len();
                self.merged.push(walk.merged_sums(captured))?;
                self.list.push(Capture {
                    register,
                    found: Found::Merged(place),
                    lanes: [true; LANES],
                })?;
            }
        }
        Ok(())
    }

    /// What the walk found in a lane at what one of the registers captures.
    pub(crate) fn sums(&self, walk: &Walk, lane: Lane, capture: &Capture) -> Option<Sums>
        requires { (circuit : Circuit)
            × IsCapture circuit walk.now self.now.merged.items capture.now }
        ensures { (circuit : Circuit)
            → IsCapture circuit walk.now self.now.merged.items capture.now
            → IsFoundIn circuit walk.now lane.number capture.now.register result }
    {
        match capture.found {
            Found::Single(signal) => walk.held_sums(lane, signal),
            Found::Merged(place) => self.merged[place].sums[lane.number],
        }
    }
}

impl Capturing {
    /// No registers yet, with room for those of a circuit.
    pub(crate) fn new(alloc: Global, circuit: &Circuit) -> Result<Capturing, NoMemory>
        ensures { IfOk result (IsCapturingOf circuit.now) }
    {
        let capturers = capturers(alloc, circuit)?;
        let captured = captured_signals(alloc, circuit)?;
        let reached = captured.cleared(alloc)?;
        let found = NumberSet::new(alloc, circuit.registers.len() as u32)?;
        Ok(Capturing {
            capturers,
            captured,
            reached,
            found,
            registers: Vec::new(alloc),
            captures: CaptureList {
                list: Vec::new(alloc),
                merged: Vec::new(alloc),
            },
        })
    }

    /// Lists the registers that capture what a walk reached.
    pub(crate) fn gather(&mut self, walk: &Walk) -> Result<(), NoMemory>
        requires room { HasCaptureRoom self.old }
        requires walk { length self.old.captured.words.items
            ≤ length walk.now.reach.reached.words.items }
        ensures { OnOk result (AreGathered walk.now self.old self.new) }
    {
        self.found.clear();
        self.reached.become_common(&self.captured, walk.reached());
        let mut next = 0;
        while let Some(signal) = self.reached.take_lowest(next) {
            self.found.insert_all(self.capturers.group(signal as usize));
            next = signal + 1;
        }
        self.found.take_all(&mut self.registers)?;
        Ok(())
    }
}
