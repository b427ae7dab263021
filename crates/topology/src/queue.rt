ghost use Rattle.std.specs.Prelude.{◌≡◌, ◌++◌, ◌∷◌, ◌<◌, [], All, IfSome, OnOk, length, slice_get, List, map, None, Some};
ghost use Rattle.topology.specs.Vocabulary.{IsPermutation, option_to_list, IsHeap, heap_items, props, Pair, IsBefore, IsReplaced, by_turn};

use crate::pair::Pair;
use cts_base::NoMemory;
use std::alloc::Global;
use std::cmp::Reverse;
use std::collections::BinaryHeap;
use std::marker::Model;

/// The pairs that are kept, the one to be merged first on top.
#[derive(Drop)]
pub(crate) struct Queue {
    heap: BinaryHeap<Reverse<Pair>>,
    ghost ordered: { IsHeap (λ x y. by_turn y.0 x.0) (heap_items heap) } by { Prim.hlevel props },
}

impl Model for Queue {
    ghost Value = { List Pair };

    ghost view = { λ queue. map (λ item. item.0) (heap_items queue.heap) };
}

impl Queue {
    /// No pairs. It takes no memory.
    pub(crate) fn new(alloc: Global) -> Queue
        ensures { result ≡ [] }
    {
        Queue {
            heap: BinaryHeap::new(alloc),
        }
    }

    /// Keeps one pair more.
    pub(crate) fn push(&mut self, pair: Pair) -> Result<(), NoMemory>
        ensures { OnOk result (IsPermutation (pair ∷ self.old) self.new) }
    {
        self.heap.push(Reverse(pair))?;
        Ok(())
    }

    /// Keeps one pair more, if there is one.
    pub(crate) fn push_found(&mut self, pair: Option<Pair>) -> Result<(), NoMemory>
        ensures { OnOk result (IsPermutation (option_to_list pair ++ self.old) self.new) }
    {
        match pair {
            Some(pair) => self.push(pair),
            None => Ok(()),
        }
    }

    /// The pair that is to be merged first.
    pub(crate) fn first(&self) -> Option<Pair>
        ensures value { result ≡ slice_get self.now 0 }
        ensures least { IfSome result (λ pair. All (λ other. ¬ IsBefore other pair) self.now) }
    {
        match self.heap.peek() {
            Some(Reverse(pair)) => Some(*pair),
            None => None,
        }
    }

    /// Keeps another pair, if there is one, instead of the one that is to be merged first. It takes
    /// no memory.
    pub(crate) fn replace_first(&mut self, pair: Option<Pair>)
        requires { 0 < length self.old }
        ensures { IsReplaced self.old self.new pair }
    {
        match pair {
            Some(pair) => {
                let mut top = self.heap.peek_mut().unwrap();
                *top = Reverse(pair);
            }
            None => {
                self.heap.pop();
            }
        }
    }
}
