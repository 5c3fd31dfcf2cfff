//! The comparison of the cases. One function for all of them costs the proofs less than an assertion in each test.
use std::process::Abort;

/// Sees that what a case wants is so, and names the case where it is not.
pub(crate) fn see(rt: &impl Abort, name: &str, is_right: bool) {
    assert!(rt; is_right, "{name}");
}
