ghost use Rattle.std.specs.Prelude.{◌≡◌, ◌≤◌, ◌<◌, ◌+◌, ◌*◌, ◌==◌, [], length, IsTrue, ◌↔◌, OnOk, IfOk, MatchOption, Some, None, vec_len, if◌then◌else◌};

use crate::TopologyFault;
use crate::entry::merge_of;
use cts_base::{Line, LineFormat, Listed, NoMemory};
use cts_model::{Merge, Topology};
use std::alloc::Global;

/// The merges of the lines so far, over so many sinks.
#[derive(Drop)]
pub(crate) struct Joining {
    sinks: usize,
    merges: Listed<Merge>,
    // Of each node whether one of the merges joins it.
    joined: Vec<bool>,
    ghost few: { sinks ≤ 4097 },
    ghost all: { vec_len joined ≡ 2 * sinks },
    ghost within: { length merges ≤ sinks },
}

impl Joining {
    ghost use Rattle.topology_file.specs.Taken.{HasTaken, IsOfOpen, TakesMerge};

    /// No merges.
    pub(crate) fn new(alloc: Global, sinks: usize) -> Result<Joining, NoMemory>
        requires { sinks ≤ 4097 }
        ensures { IfOk result (λ joining. HasTaken sinks joining []) }
    {
        Ok(Joining {
            sinks,
            merges: Listed::new(alloc),
            joined: vec![in alloc; false; 2 * sinks]?,
        })
    }

    // The node that the next merge makes, if not all sinks are joined.
    fn due_node(&self) -> Option<u32>
        ensures { MatchOption result (self.now.sinks ≤ length self.now.merges + 1)
            (λ due. (length self.now.merges + 1 < self.now.sinks)
            × (due ≡ self.now.sinks + length self.now.merges)) }
    {
        if self.merges.len() + 1 < self.sinks {
            Some((self.sinks + self.merges.len()) as u32)
        } else {
            None
        }
    }

    /// The merges, if they join all sinks.
    pub(crate) fn topology(self) -> Option<Topology>
        ensures { result ≡ (if length self.merges + 1 == self.sinks
            then Some (record { merges = self.merges }) else None) }
    {
        if self.merges.len() + 1 == self.sinks {
            Some(Topology {
                merges: self.merges,
            })
        } else {
            None
        }
    }

    // Whether a merge joins two nodes that are made and that no merge joins, the lower first.
    fn has_open(&self, merge: Merge) -> bool
        ensures { IsTrue result ↔ IsOfOpen self.now merge }
    {
        merge.first < merge.second
            && (merge.second as usize) < self.sinks + self.merges.len()
            && !self.joined[merge.first as usize]
            && !self.joined[merge.second as usize]
    }

    // Takes in a merge of two such nodes.
    fn join(&mut self, merge: Merge) -> Result<(), NoMemory>
        requires open { IsOfOpen self.old merge }
        requires due { length self.old.merges + 1 < self.old.sinks }
        ensures { OnOk result (TakesMerge self.old self.new merge) }
    {
        self.merges.push(merge)?;
        self.joined[merge.first as usize] = true;
        self.joined[merge.second as usize] = true;
        Ok(())
    }
}

impl<'a> LineFormat<'a> for Joining {
    ghost use Rattle.topology_file.specs.TopologyTexts.{topology_line_fault};
    ghost use Rattle.topology_file.specs.Taken.{HasTaken};
    ghost use Rattle.topology_file.specs.declared.fault.TopologyFault.TheVariants.{NoMemory};

    type Fault = TopologyFault;

    ghost no_memory = { NoMemory };

    ghost fault_of = { λ start. topology_line_fault start.sinks };

    ghost has_read = { λ start. HasTaken start.sinks };

    fn read_line(&mut self, line: Line<'a>) -> Result<(), TopologyFault> {
        let mut words = line.words();
        let Some(made) = words.next() else {
            return Ok(());
        };
        let Some(due) = self.due_node() else {
            return Err(TopologyFault::Extra(line.number));
        };
        let Some(merge) = merge_of(due, made, words) else {
            return Err(TopologyFault::BadLine(line.number));
        };
        if !self.has_open(merge) {
            return Err(TopologyFault::NotOpen(line.number));
        }
        self.join(merge)?;
        Ok(())
    }
}
