//! Comparing: each test calls these with what it found, so that its own body has no text of a failure.

use std::fmt::Debug;
use std::process::Abort;

/// Compares two values.
pub fn same<T: PartialEq + Debug>(judge: &impl Abort, found: &T, want: &T) {
    assert_eq!(judge; found, want);
}

/// Compares bytes.
pub fn same_bytes(judge: &impl Abort, found: &[u8], want: &[u8]) {
    assert_eq!(judge; found, want);
}
