//! The comparisons of the cases. One function for all of them costs the proofs less than an assertion in each test.
use std::process::Abort;
use std::test::Fail;

/// Compares a text with the one that a case wants, and names the case where they differ.
pub fn see_text(rt: &impl Abort, name: &str, found: &[u8], want: &str) -> Result<(), Fail> {
    let found = str::from_utf8(found)?;
    assert_eq!(rt; found, want, "{name}");
    Ok(())
}

/// Sees that what a case wants is so, and names the case where it is not.
pub fn see(rt: &impl Abort, name: &str, is_right: bool) {
    assert!(rt; is_right, "{name}");
}
