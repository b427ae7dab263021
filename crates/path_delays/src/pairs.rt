ghost use Rattle.std.specs.Prelude.{◌≡◌, ◌<◌, ◌≤◌, ◌+◌, ◌++◌, length, vec_len, IfErr, IfOk, OnOk};
ghost use Rattle.path_delays.specs.Vocabulary.{option_to_list, Tech, HasReach, AreAllReached, ListsCaptures, IsCapturingOf, registers_of, ListsPairsBefore, ShowsTooMany, MeetsLimit, pair_limit};

use crate::PairFault;
use crate::capturing::{CaptureList, Capturing, list_captures};
use crate::lanes::Lane;
use crate::pair::joined_pair;
use crate::path_search::Paths;
use crate::walk::Walk;
use cts_model::{Circuit, PairDelay};

/// How many joined pairs of registers a circuit may have.
const MAX_PAIRS: usize = 1_048_576;

/// The pairs that are listed so far.
#[derive(Drop)]
pub(crate) struct PairList {
    pub(crate) list: Vec<PairDelay>,
    pub(crate) ghost few: { vec_len list ≤ pair_limit },
}

impl Paths<'_> {
    /// Appends the pairs of up to sixteen registers that launch, from one number on. It tells the
    /// number after theirs.
    pub(crate) fn push_block(
        &mut self,
        pairs: &mut PairList,
        capturing: &mut Capturing,
        first: usize,
    ) -> Result<usize, PairFault>
        requires first { first < length self.old.circuit.registers }
        requires capturing { IsCapturingOf self.old.circuit capturing.old }
        requires listed { ListsPairsBefore self.old.circuit self.old.tech first 0
            pairs.old.list.items }
        ensures same { self.new ≡ self.old }
        ensures capturing { IfOk result (λ _. IsCapturingOf self.old.circuit capturing.new) }
        ensures after { IfOk result (λ end. first < end) }
        ensures listed { IfOk result (λ end.
            ListsPairsBefore self.old.circuit self.old.tech end 0 pairs.new.list.items) }
        ensures many { IfErr result (ShowsTooMany self.old.circuit) }
    {
        let end = self.walk.walk_block(self.circuit, self.tech, first);
        capturing.gather(&self.walk)?;
        let registers = capturing.registers.as_slice();
        list_captures(&mut capturing.captures, &self.walk, self.circuit, registers)?;
        for from in first..end {
            let lane = Lane {
                number: from - first,
            };
            let captures = &capturing.captures;
            push_pairs_from(pairs, &self.walk, captures, self.circuit, lane, from as u32)?;
        }
        Ok(end)
    }
}

// Appends the pairs of the register that launches, which is walked from in a lane, with what the
// walk found at the registers that it reaches.
fn push_pairs_from(
    pairs: &mut PairList,
    walk: &Walk,
    captures: &CaptureList,
    circuit: &Circuit,
    lane: Lane,
    from: u32,
) -> Result<(), PairFault>
    requires registers { AreAllReached circuit.now from (registers_of captures.now.list.items) }
    requires captures { ListsCaptures circuit.now walk.now captures.now }
    ensures listed { OnOk result ((tech : Tech)
        → HasReach circuit.now tech from lane.number walk.now
        → ListsPairsBefore circuit.now tech from 0 pairs.old.list.items
        → ListsPairsBefore circuit.now tech (from + 1) 0 pairs.new.list.items) }
    ensures many { IfErr result (λ fault. (tech : Tech)
        → HasReach circuit.now tech from lane.number walk.now
        → ListsPairsBefore circuit.now tech from 0 pairs.old.list.items
        → ShowsTooMany circuit.now fault) }
{
    for capture in captures.list.as_slice() {
        if !capture.lanes[lane.number] {
            continue;
        }
        let found = captures.sums(walk, lane, capture);
        push_joined(pairs, joined_pair(from, capture.register, found))?;
    }
    Ok(())
}

// Appends a pair, if there is one.
fn push_joined(pairs: &mut PairList, joined: Option<PairDelay>) -> Result<(), PairFault>
    ensures ok { OnOk result
        (pairs.new.list.items ≡ pairs.old.list.items ++ option_to_list joined) }
    ensures many { IfErr result (MeetsLimit joined pairs.old.list.items) }
{
    match joined {
        None => Ok(()),
        Some(_) if pairs.list.len() >= MAX_PAIRS => Err(PairFault::TooManyPairs),
        Some(pair) => {
            pairs.list.push(pair)?;
            Ok(())
        }
    }
}
