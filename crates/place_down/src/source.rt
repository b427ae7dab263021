ghost use Rattle.std.specs.Prelude.{◌≡◌, ◌*◌, ◌^◌, ◌++◌, [], ◌∷◌, ℤ, ◌+ℤ◌, List, Some, slice_get};
ghost use Rattle.place_down.specs.Vocabulary.{Sink, IsBelow, IsMultipleOf, rotated, rotated_distance, AreTreeSinks, IsTreeSink, IsTop, IsTreeSource};

use cts_model::{Point, Show, Sink, Uv, manhattan};
use tilted_rect::to_point;

/// How far the source reaches, and what shows it.
#[derive(Clone, Copy, PartialEq, Eq)]
pub(crate) struct Top {
    /// In grid steps.
    pub reach: i128,
    /// A sink, or the root where it reaches as far.
    pub show: Show,
}

/// The source's reach over a root with that reach. A sink shows it only where it is further than
/// the root reaches. It takes no memory.
pub(crate) fn top_of(sinks: &[Sink], source: Uv, root: i128) -> Top
    requires sinks { AreTreeSinks sinks.now }
    requires source { IsTreeSource source }
    requires below { IsBelow (3 * 10 ^ 31) root }
    requires multiple { IsMultipleOf 4 root }
    ensures { IsTop sinks.now sinks.now source root result }
{
    let at = to_point(source);
    let mut top = Top {
        reach: root,
        show: Show::Root,
    };
    for register in 0..sinks.len() {
        top = top.further(register as u32, sinks[register], at);
    }
    top
}

impl Top {
    // With one more sink, at that distance from the source.
    fn further(self, register: u32, sink: Sink, source: Point) -> Top
        requires sink { IsTreeSink sink }
        requires source { IsTreeSource (rotated source) }
        ensures { (sinks first : List Sink) (root : ℤ) → slice_get sinks register ≡ Some sink
            → IsTop sinks first (rotated source) root self
            → IsTop sinks (first ++ sink ∷ []) (rotated source) root result }
    {
        let reach = reach_to(source, sink);
        if reach <= self.reach {
            return self;
        }
        Top {
            reach,
            show: Show::Sink(register),
        }
    }
}

// How far the source is from a sink, with the sink's offset.
fn reach_to(source: Point, sink: Sink) -> i128
    requires sink { IsTreeSink sink }
    requires source { IsTreeSource (rotated source) }
    ensures value { result ≡ sink.offset +ℤ rotated_distance (rotated source) sink.at }
    ensures below { IsBelow (3 * 10 ^ 31) result }
    ensures multiple { IsMultipleOf 8 result }
{
    sink.offset + manhattan(source, to_point(sink.at))
}
