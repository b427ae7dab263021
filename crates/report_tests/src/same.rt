use std::fmt::Debug;
use std::process::Abort;

/// What a test found is what it wants, in this row.
pub(crate) fn expect_same<T: Debug + Drop + PartialEq>(
    rt: &impl Abort,
    found: T,
    wanted: T,
    row: &impl Debug,
) {
    assert_eq!(rt; found, wanted, "at {row:?}");
}
