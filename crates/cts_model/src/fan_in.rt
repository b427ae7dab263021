ghost use Rattle.std.specs.Prelude.{◌≡◌, ◌≤◌, ◌<◌, ◌↔◌, ◌==◌, List, ℕ, [], ◌∷◌, ◌++◌, length, slice_get, OnOk, OnErr, IsNone, IsOk, IfOk};
ghost use Rattle.std.specs.Option.{option_copied};

use cts_base::NoMemory;
use smallvec::SmallVec;
use std::alloc::Global;
use std::marker::Model;

/// The numbers of the signals that a signal reads, in order. Up to four stand in the value itself.
#[derive(Debug, Drop)]
pub struct FanIn {
    signals: SmallVec<u32, 4>,
}

impl Model for FanIn {
    ghost Value = { List ℕ };

    ghost view = { λ fan_in. fan_in.signals.items };

    ghost invariant = { λ fan_in. 4 ≤ fan_in.signals.capacity };
}

impl FanIn {
    /// No signals. It takes no memory.
    pub fn new(alloc: Global) -> FanIn
        ensures { result ≡ [] }
    {
        FanIn {
            signals: SmallVec::new(alloc),
        }
    }

    /// The list of these numbers. Up to four take no memory.
    ///
    /// # Errors
    ///
    /// `NoMemory` where memory is refused.
    pub fn from_slice(alloc: Global, items: &[u32]) -> Result<FanIn, NoMemory>
        ensures ok { IfOk result (λ fan_in. fan_in ≡ items.now) }
        ensures inline { length items.now ≤ 4 → IsOk result }
    {
        Ok(FanIn {
            signals: SmallVec::from_slice(alloc, items)?,
        })
    }

    /// Puts a signal last. The first four take no memory.
    ///
    /// # Errors
    ///
    /// `NoMemory` where memory is refused; the list is unchanged then.
    pub fn push(&mut self, item: u32) -> Result<(), NoMemory>
        ensures ok { OnOk result (self.new ≡ self.old ++ item ∷ []) }
        ensures err { OnErr result (self.new ≡ self.old) }
        ensures inline { length self.old < 4 → IsOk result }
    {
        self.signals.push(item)?;
        Ok(())
    }

    /// How many signals are read, each as often as it is listed.
    pub fn len(&self) -> usize
        ensures { result ≡ length self.now }
    {
        self.signals.len()
    }

    /// Whether no signal is read.
    pub fn is_empty(&self) -> bool
        ensures { result ≡ (length self.now == 0) }
    {
        self.signals.is_empty()
    }

    /// The numbers in order, where they stand. It takes no memory.
    pub fn as_slice(&self) -> &[u32]
        ensures { result.now ≡ self.now }
    {
        self.signals.as_slice()
    }

    /// The number at a place, counted from 0.
    pub fn get(&self, at: usize) -> Option<&u32>
        ensures value { option_copied result ≡ slice_get self.now at }
        ensures none { IsNone result ↔ (length self.now ≤ at) }
    {
        self.signals.as_slice().get(at)
    }
}
