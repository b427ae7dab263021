ghost use Rattle.std.specs.Prelude.{◌≡◌};
ghost use Rattle.cts_model.specs.placement.Coordinates.{point_of};

use crate::Point;
use cts_base::{NumberFault, read_micro};

/// Reads the two coordinates of a point, in micros. It takes no memory.
///
/// # Errors
///
/// What is wrong with x, or else with y.
pub fn read_point(x: &[u8], y: &[u8]) -> Result<Point, NumberFault>
    ensures { result ≡ point_of x.now y.now }
{
    let x = read_micro(x)?;
    let y = read_micro(y)?;
    Ok(Point {
        x: i128::from(x),
        y: i128::from(y),
    })
}
