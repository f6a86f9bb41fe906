//! What tests assert. Each assertion costs the prover as much as a small test, so it stands here alone.
use std::fmt::Debug;
use std::process::Abort;

/// Asserts that what is told of a row is what is wanted.
pub fn same<A: Abort, R: Copy + Debug, T: Copy + Debug + PartialEq>(
    rt: &A,
    row: R,
    told: T,
    wanted: T,
) {
    assert_eq!(rt; told, wanted, "{row:?}");
}
