ghost use Rattle.std.specs.Prelude.{◌≡◌, ◌≤◌, ◌+◌, ◌-◌, ◌^◌, min, length};
ghost use Rattle.merge_up.specs.Vocabulary.{AreTreeSinks, IsTopology, HoldsSinks, IsFit, IsMerged, IsUnsettled, KeepsAllEnds};

use crate::work::Work;
use cts_model::{Sink, Topology};

/// Finds the reach, the region and the show of each node of a topology over the sinks. It takes no
/// memory. Each merge is made once, in order. What there is room for stays.
pub fn merge(work: &mut Work, sinks: &[Sink], topology: &Topology)
    requires sinks { AreTreeSinks sinks.now }
    requires topology { IsTopology (length sinks.now) topology.now.merges }
    requires room { length sinks.now ≤ work.old.room }
    ensures merged { IsMerged sinks.now topology.now.merges work.new }
    ensures kept { KeepsAllEnds sinks.now topology.now.merges work.new }
    ensures room { work.new.room ≡ work.old.room }
    ensures settled { IsUnsettled work.new }
    ensures renewals { work.new.renewals
        ≡ min (work.old.renewals + length topology.now.merges) (2 ^ 64 - 1) }
{
    set_sinks(work, sinks);
    for place in 0..topology.merges.len() {
        work.renew_from_kept(sinks, topology, (sinks.len() + place) as u32);
    }
}

// From here on the work is of these sinks, with their reaches and regions, and holds no merge.
fn set_sinks(work: &mut Work, sinks: &[Sink])
    requires sinks { AreTreeSinks sinks.now }
    requires room { length sinks.now ≤ work.old.room }
    ensures count { work.new.sinks ≡ length sinks.now }
    ensures sinks { HoldsSinks sinks.now work.new }
    ensures room { work.new.room ≡ work.old.room }
    ensures settled { IsUnsettled work.new }
    ensures renewals { work.new.renewals ≡ work.old.renewals }
    ensures fit { IsFit work.new }
{
    work.begin(sinks.len());
    for register in 0..sinks.len() {
        work.set_sink(register as u32, sinks[register]);
    }
}
