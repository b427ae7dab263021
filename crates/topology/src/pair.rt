ghost use Rattle.std.specs.Prelude.{◌≡◌, ◌↔◌, IsSomeAnd, IsTrue, pos};
ghost use Rattle.topology.specs.Pairs.{ComesFirst, IsBefore, IsCheaperOf, merge_of};

use cts_model::Merge;

/// Two clusters that may be merged next, in the order in which pairs are to be merged.
#[derive(Clone, Copy, PartialEq, Eq, PartialOrd, Ord)]
pub(crate) struct Pair {
    /// What the wire of the tree grows by.
    pub(crate) cost: i128,
    /// The lower number of their nodes.
    pub(crate) first: u32,
    /// The higher one.
    pub(crate) second: u32,
}

impl Pair {
    /// The merge of the two.
    pub(crate) fn merge(&self) -> Merge
        ensures { result ≡ merge_of self.now }
    {
        Merge {
            first: self.first,
            second: self.second,
        }
    }

    // Whether it is to be merged before another.
    fn is_before(&self, other: &Pair) -> bool
        ensures { IsTrue result ↔ IsBefore self.now other.now }
    {
        self < other
    }
}

/// Keeps another pair instead, where that one is to be merged first.
pub(crate) fn keep_cheaper(kept: &mut Option<Pair>, other: &Option<Pair>)
    ensures { IsCheaperOf kept.old other.now kept.new }
{
    if comes_first(other, kept) {
        *kept = *other;
    }
}

// Whether the one pair is there and to be merged before the other.
fn comes_first(pair: &Option<Pair>, kept: &Option<Pair>) -> bool
    ensures { IsTrue result ↔ ComesFirst pair.now kept.now }
{
    match (pair, kept) {
        (Some(pair), Some(kept)) => pair.is_before(kept),
        (Some(_), None) => true,
        (None, _) => false,
    }
}

/// Whether there is a pair, and merging it costs nothing.
pub(crate) fn costs_nothing(pair: &Option<Pair>) -> bool
    ensures { IsTrue result ↔ IsSomeAnd pair.now (λ pair. pair.cost ≡ pos 0) }
{
    matches!(pair, Some(pair) if pair.cost == 0)
}
