ghost use Rattle.std.specs.Prelude.{◌≡◌, Ok};

use std::fmt::Debug;
use std::process::Abort;

/// What a test found is what it wants, in this row.
pub(crate) fn expect_same<T: Debug + Drop + PartialEq>(
    rt: &impl Abort,
    found: T,
    wanted: T,
    row: &impl Debug,
) {
    assert_eq!(rt; found, wanted, "at {row:?}");
}

/// What a call that may fail has made; where it failed, as where memory is refused, the test ends.
pub(crate) fn made<T, E: Debug + Drop>(rt: &impl Abort, call: Result<T, E>) -> T
    ensures { call ≡ Ok result }
{
    match call {
        Ok(value) => value,
        Err(error) => panic!(rt; "{error:?}"),
    }
}
