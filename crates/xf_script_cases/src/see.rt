//! The comparison of the cases. One function for all of them costs the proofs less than an assertion in each test.
use std::process::Abort;
use std::test::Fail;

/// Compares a text with the one that a case wants.
pub(crate) fn see(rt: &impl Abort, found: &[u8], want: &str) -> Result<(), Fail> {
    assert_eq!(rt; str::from_utf8(found)?, want);
    Ok(())
}
