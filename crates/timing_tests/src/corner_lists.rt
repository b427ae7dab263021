//! Lists of the constraints of several corners, which name the same registers at each place.
ghost use Rattle.std.specs.Prelude.{◌≡◌, ◌<◌, ◌≤◌, length, All};
ghost use Rattle.corners.specs.CornerLists.{AreAlike, AreCorners, AreParallel, list_of};

use cts_base::Listed;
use cts_model::Constraint;
use std::process::Abort;

// Two constraints that differ in their weights alone.
fn expect_alike(rt: &impl Abort, one: Constraint, other: Constraint)
    ensures { AreAlike one other }
{
    assert!(rt; one.setup == other.setup);
    assert!(rt; one.tail == other.tail);
    assert!(rt; one.head == other.head);
}

// A list of so many constraints.
fn expect_long(rt: &impl Abort, list: &[Constraint], len: usize)
    ensures { length list.now ≡ len }
{
    assert!(rt; list.len() == len);
}

// Two lists with such constraints at each place.
fn expect_parallel(rt: &impl Abort, one: &[Constraint], other: &[Constraint])
    ensures { AreParallel one.now other.now }
{
    expect_long(rt, one, other.len());
    for place in 0..one.len() {
        expect_alike(rt, one[place], other[place]);
    }
}

// The list of this corner and each of all.
fn expect_parallel_to_all(rt: &impl Abort, lists: &[Listed<Constraint>], corner: usize)
    requires { corner < length lists.now }
    ensures { All (AreParallel (list_of lists.now corner)) lists.now }
{
    for other in 0..lists.len() {
        expect_parallel(rt, lists[corner].as_slice(), lists[other].as_slice());
    }
}

// The lists of 1 to 16 corners.
fn expect_few(rt: &impl Abort, lists: &[Listed<Constraint>])
    ensures some { 1 ≤ length lists.now }
    ensures few { length lists.now ≤ 16 }
{
    assert!(rt; !lists.is_empty());
    assert!(rt; lists.len() <= 16);
}

// And any two of them parallel.
pub(crate) fn expect_corners(rt: &impl Abort, lists: &[Listed<Constraint>])
    ensures { AreCorners lists.now }
{
    expect_few(rt, lists);
    for corner in 0..lists.len() {
        expect_parallel_to_all(rt, lists, corner);
    }
}
