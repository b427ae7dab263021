//! The registers that wait to hand their values on, the one first that has risen most.

use crate::relaxation::Relaxation;
use cts_base::NoMemory;
use std::alloc::Global;
use std::collections::BinaryHeap;

/// The registers that wait to hand their values on. In a pass each has one turn, and the one comes
/// next that has risen most since its last. Where no constraint lets its head rise more than its
/// tail has risen, that is the order of Dijkstra, "A note on two problems in connexion with graphs",
/// 1959, and one pass is enough.
#[derive(Drop)]
pub(crate) struct Waiting {
    turns: Vec<Turn>,
    // How many registers wait.
    count: usize,
    // How far registers have risen that are to have a turn in this pass.
    risen: BinaryHeap<(i128, u32)>,
}

#[derive(Clone, Copy)]
struct Turn {
    // The value that the register handed on last.
    handed: i128,
    // Whether it waits.
    waits: bool,
    // Whether it has had its turn in this pass.
    is_over: bool,
}

impl Waiting {
    /// Each register waits.
    ///
    /// # Errors
    ///
    /// There is no memory for the turns, 32 bytes for each register.
    pub(crate) fn new(alloc: Global, registers: usize) -> Result<Waiting, NoMemory> {
        let turn = Turn {
            handed: 0,
            waits: true,
            is_over: false,
        };
        Ok(Waiting {
            turns: vec![in alloc; turn; registers]?,
            count: registers,
            risen: BinaryHeap::new(alloc),
        })
    }

    /// How many registers wait.
    pub(crate) fn count(&self) -> usize {
        self.count
    }

    /// Whether each register waits.
    pub(crate) fn are_all(&self) -> bool {
        self.count == self.turns.len()
    }

    /// Lets each register wait.
    pub(crate) fn let_all_wait(&mut self) {
        self.count = self.turns.len();
        for turn in self.turns.iter_mut() {
            turn.waits = true;
        }
    }

    /// Lets a register wait, if there is one.
    pub(crate) fn let_wait(&mut self, register: Option<u32>) {
        let Some(register) = register else {
            return;
        };
        if let Some(turn) = self.turns.get_mut(register as usize) {
            if !turn.waits {
                turn.waits = true;
                self.count = self.count.wrapping_add(1);
            }
        }
    }

    /// Lets no register wait any more.
    pub(crate) fn clear(&mut self) {
        self.count = 0;
        for turn in self.turns.iter_mut() {
            turn.waits = false;
        }
    }

    /// The registers have handed their values on.
    pub(crate) fn have_handed_on(&mut self, relaxation: &Relaxation<'_>) {
        for (turn, value) in self.turns.iter_mut().zip(relaxation.values.as_slice()) {
            turn.handed = *value;
        }
    }

    /// Begins a pass, in which those that wait have turns. Where all do, what they handed on before
    /// is forgotten.
    pub(crate) fn begin_pass(&mut self, relaxation: &Relaxation<'_>) {
        if self.are_all() {
            self.have_handed_on(relaxation);
        }
        for turn in self.turns.iter_mut() {
            turn.is_over = false;
        }
        self.risen.clear();
        let registers = relaxation.values.len() as u32;
        for register in (0..registers).rev() {
            let turn = self.turns.get(register as usize);
            if turn.is_some_and(|turn| turn.waits) {
                self.call(register, relaxation);
            }
        }
    }

    /// Gives a register a turn in this pass, if it hasn't had it. Without memory it waits for a
    /// later one.
    pub(crate) fn call(&mut self, register: u32, relaxation: &Relaxation<'_>) {
        let turn = self.turns.get(register as usize);
        let value = relaxation.values.get(register as usize);
        if let (Some(turn), Some(value)) = (turn, value) {
            if !turn.is_over {
                let _called = self.risen.push((value.wrapping_sub(turn.handed), register));
            }
        }
    }

    /// The register whose turn it is next. It waits no more.
    pub(crate) fn next(&mut self, relaxation: &Relaxation<'_>) -> Option<u32> {
        for _call in 0..self.risen.len() {
            let (_risen, register) = self.risen.pop()?;
            if self.take(register, relaxation) {
                return Some(register);
            }
        }
        None
    }

    // Lets a register have its turn in this pass, if it hasn't had it.
    fn take(&mut self, register: u32, relaxation: &Relaxation<'_>) -> bool {
        let turn = self.turns.get_mut(register as usize);
        let value = relaxation.values.get(register as usize);
        let (Some(turn), Some(value)) = (turn, value) else {
            return false;
        };
        if turn.is_over {
            return false;
        }
        self.count = self.count.wrapping_sub(1);
        *turn = Turn {
            handed: *value,
            waits: false,
            is_over: true,
        };
        true
    }
}
