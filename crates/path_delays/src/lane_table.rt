ghost use Rattle.std.specs.Prelude.{◌≡◌, ◌<◌, ◌≤◌, ℕ, false, None, Contains, IfOk, length, map, if◌then◌else◌, slice_index_or};
ghost use Rattle.path_delays.specs.Vocabulary.{option_and_then, option_map_or, AllBounded, lane_of, merged_sums, AreBoundedAmong, AreExtremesIfAny, StandsAt, lane_among, CanHand, IsJoined, IsMerged, IsPassed, lane_in, rows_of, table_limit, narrow_limit, AreWithin, delay_limit, some_sums};

use crate::lanes::{LANES, Lane, LaneSums, Lanes};
use crate::narrow_lanes::NarrowLanes;
use crate::number_set::NumberSet;
use crate::row::Row;
use crate::sums::Sums;
use cts_base::NoMemory;
use std::alloc::Global;

/// The sums to each signal, in lanes: of 32 bits where those are sure to hold all sums, as twice as
/// many then stand side by side in memory.
#[derive(Drop)]
pub(crate) enum LaneTable {
    /// Where the greatest delays of all gates together, and a million ticks for the register, are
    /// at most 2^29 - 1.
    Narrow(Vec<NarrowLanes>),
    /// All others.
    Wide(Vec<Lanes>),
}

impl LaneTable {
    /// Lanes for so many signals, of 32 bits for a short network.
    pub(crate) fn new(alloc: Global, signals: usize, short: bool) -> Result<LaneTable, NoMemory>
        ensures rows { IfOk result (λ table. length (rows_of table) ≡ signals) }
        ensures limit { IfOk result
            (λ table. table_limit table ≡ (if short then narrow_limit else delay_limit)) }
    {
        Ok(if short {
            LaneTable::Narrow(vec![in alloc; NarrowLanes::none(); signals]?)
        } else {
            LaneTable::Wide(vec![in alloc; Lanes::none(); signals]?)
        })
    }

    /// The sums in a lane of a signal, if there are any.
    pub(crate) fn sums(&self, signal: usize, lane: Lane) -> Option<Sums>
        ensures { result
            ≡ option_and_then some_sums (lane_in (rows_of self.now) signal lane.number) }
    {
        match self {
            LaneTable::Narrow(rows) => in_lane(rows, signal, lane),
            LaneTable::Wide(rows) => in_lane(rows, signal, lane),
        }
    }

    /// False only in lanes in which a signal has no sums.
    pub(crate) fn filled(&self, signal: usize) -> [bool; 16]
        ensures { (lane : ℕ) → lane < 16 → slice_index_or result lane false ≡ false
            → option_and_then some_sums (lane_in (rows_of self.now) signal lane) ≡ None }
    {
        match self {
            LaneTable::Narrow(rows) => filled(rows, signal),
            LaneTable::Wide(rows) => filled(rows, signal),
        }
    }

    /// In each lane the least and the greatest of what stands there at some signals, as far as
    /// these are in a set.
    pub(crate) fn merged(&self, reached: &NumberSet, signals: &[u32]) -> LaneSums
        requires { AreBoundedAmong (table_limit self.now) (rows_of self.now)
            reached.now.words.items }
        ensures { (lane : ℕ) → lane < 16 → AreExtremesIfAny
            (StandsAt (λ signal. option_and_then some_sums
            (lane_among (rows_of self.now) reached.now.words.items lane signal))
            (Contains signals.now)) (slice_index_or result.sums lane None) }
    {
        match self {
            LaneTable::Narrow(rows) => merged(rows, reached, signals),
            LaneTable::Wide(rows) => merged(rows, reached, signals),
        }
    }

    /// Joins sums in a lane of a signal. Where they are its first, its lanes hold no others.
    pub(crate) fn join(&mut self, signal: usize, lane: Lane, sums: Sums, first: bool)
        requires signal { signal < length (rows_of self.old) }
        requires sums { AreWithin (table_limit self.old) sums }
        ensures limit { table_limit self.new ≡ table_limit self.old }
        ensures sums { IsJoined signal lane.number sums first (rows_of self.old)
            (rows_of self.new) }
    {
        match self {
            LaneTable::Narrow(rows) => join(rows, signal, lane, sums, first),
            LaneTable::Wide(rows) => join(rows, signal, lane, sums, first),
        }
    }

    /// Gives one signal the sums of another after a delay.
    pub(crate) fn pass(&mut self, from: usize, to: usize, delay: Sums)
        requires { CanHand (table_limit self.old) (rows_of self.old) from to delay }
        ensures limit { table_limit self.new ≡ table_limit self.old }
        ensures sums { IsPassed from to delay (rows_of self.old) (rows_of self.new) }
    {
        match self {
            LaneTable::Narrow(rows) => pass(rows, from, to, delay),
            LaneTable::Wide(rows) => pass(rows, from, to, delay),
        }
    }

    /// Joins the sums of a signal after a delay with those of another one.
    pub(crate) fn merge(&mut self, from: usize, to: usize, delay: Sums)
        requires { CanHand (table_limit self.old) (rows_of self.old) from to delay }
        ensures limit { table_limit self.new ≡ table_limit self.old }
        ensures sums { IsMerged from to delay (rows_of self.old) (rows_of self.new) }
    {
        match self {
            LaneTable::Narrow(rows) => merge(rows, from, to, delay),
            LaneTable::Wide(rows) => merge(rows, from, to, delay),
        }
    }
}

// The steps over rows of one width.

fn in_lane<R: Row>(rows: &Vec<R>, signal: usize, lane: Lane) -> Option<Sums>
    ensures { result
        ≡ option_and_then some_sums (lane_in (map R.wide rows.now.items) signal lane.number) }
{
    rows.get(signal)?.in_lane(lane)
}

fn filled<R: Row>(rows: &Vec<R>, signal: usize) -> [bool; 16]
    ensures { (lane : ℕ) → lane < 16 → slice_index_or result lane false ≡ false
        → option_and_then some_sums (lane_in (map R.wide rows.now.items) signal lane) ≡ None }
{
    match rows.get(signal) {
        Some(lanes) => lanes.filled(),
        None => [true; 16],
    }
}

fn merged<R: Row>(rows: &Vec<R>, reached: &NumberSet, signals: &[u32]) -> LaneSums
    requires few { R.limit ≤ delay_limit }
    requires bounded { AreBoundedAmong R.limit (map R.wide rows.now.items)
        reached.now.words.items }
    ensures { (lane : ℕ) → lane < 16 → AreExtremesIfAny
        (StandsAt (λ signal. option_and_then some_sums
        (lane_among (map R.wide rows.now.items) reached.now.words.items lane signal))
        (Contains signals.now)) (slice_index_or result.sums lane None) }
{
    let mut row = R::none();
    for signal in signals {
        merge_reached(&mut row, rows, reached, *signal);
    }
    in_lanes(&row)
}

fn merge_reached<R: Row>(row: &mut R, rows: &Vec<R>, reached: &NumberSet, signal: u32)
    ensures { (lane : ℕ) → lane < 16 → lane_of (R.wide row.new) lane
        ≡ option_map_or (merged_sums (lane_of (R.wide row.old) lane))
        (lane_among (map R.wide rows.now.items) reached.now.words.items lane signal)
        (lane_of (R.wide row.old) lane) }
{
    if !reached.contains(signal) {
        return;
    }
    if let Some(other) = rows.get(signal as usize) {
        row.merge(other);
    }
}

fn in_lanes<R: Row>(row: &R) -> LaneSums
    ensures { (lane : ℕ) → lane < 16
        → slice_index_or result.sums lane None ≡ some_sums (lane_of (R.wide row.now) lane) }
{
    let mut sums = [None; LANES];
    for lane in 0..LANES {
        sums[lane] = row.in_lane(Lane { number: lane });
    }
    LaneSums { sums }
}

fn join<R: Row>(rows: &mut Vec<R>, signal: usize, lane: Lane, sums: Sums, first: bool)
    requires signal { signal < length (map R.wide rows.old.items) }
    requires sums { AreWithin R.limit sums }
    ensures { IsJoined signal lane.number sums first (map R.wide rows.old.items)
        (map R.wide rows.new.items) }
{
    if first {
        let mut row = R::none();
        row.join(lane, sums);
        rows[signal] = row;
    } else {
        rows[signal].join(lane, sums);
    }
}

fn pass<R: Row>(rows: &mut Vec<R>, from: usize, to: usize, delay: Sums)
    requires { CanHand R.limit (map R.wide rows.old.items) from to delay }
    ensures { IsPassed from to delay (map R.wide rows.old.items) (map R.wide rows.new.items) }
{
    let mut sums = rows[from];
    sums.pass(delay);
    rows[to] = sums;
}

fn merge<R: Row>(rows: &mut Vec<R>, from: usize, to: usize, delay: Sums)
    requires { CanHand R.limit (map R.wide rows.old.items) from to delay }
    ensures { IsMerged from to delay (map R.wide rows.old.items) (map R.wide rows.new.items) }
{
    let mut sums = rows[from];
    sums.pass(delay);
    rows[to].merge(&sums);
}
