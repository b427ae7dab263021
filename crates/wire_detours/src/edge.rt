ghost use Rattle.std.specs.Prelude.{◌≤◌, ◌^◌, take, pos, ◌<ℤ◌, ◌≤ℤ◌};
ghost use Rattle.cts_model.specs.Vocabulary.{IsMultipleOf, IsPointBelow, distance, ArePadded, IsDrawn};
ghost use Rattle.wire_detours.specs.WirePoints.{ArePoints};

use crate::detour::Detour;
use crate::shape::shortest;
use cts_model::{Point, Wire, half, manhattan};

/// The wire of an edge from a node's parent to the node, of that length in grid steps. Where the
/// length is beyond the distance, the detour lies on the side where the node isn't. It takes no
/// memory.
pub fn wire(from: Point, to: Point, length: i128) -> Wire
    requires from { IsPointBelow (10 ^ 32) from }
    requires to { IsPointBelow (10 ^ 32) to }
    requires multiple { IsMultipleOf 4 length }
    requires distance_multiple { IsMultipleOf 4 (distance from to) }
    requires enough { distance from to ≤ℤ length }
    requires below { length <ℤ pos (10 ^ 32) }
    ensures drawn { IsDrawn from to length (take result.used result.corners) }
    ensures points { ArePoints from to length (take result.used result.corners) }
    ensures padded { ArePadded result }
    ensures used { (1 ≤ result.used) × (result.used ≤ 5) }
{
    let detour = Detour {
        from,
        by: half(length - manhattan(from, to)),
    };
    if detour.by == 0 {
        shortest(from, to)
    } else if from.x != to.x {
        detour.around(to)
    } else if from.y != to.y {
        detour.beside(to)
    } else {
        let square = Detour {
            from,
            by: half(detour.by),
        };
        square.round()
    }
}
