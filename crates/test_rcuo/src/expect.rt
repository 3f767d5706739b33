//! What a test compares. To the test this is one call, with no way out of its own, at which all that the test has would be dropped.

use std::fmt::Debug;
use std::process::Abort;

/// What is found is what is wanted, of what is named.
pub(crate) fn expect_same<T: PartialEq + Debug + Drop>(
    rt: &impl Abort,
    what: &str,
    found: T,
    wanted: T,
) {
    if found != wanted {
        panic!(rt; "{what}: {found:?}, and not {wanted:?}");
    }
}

/// A text that is found is the one that is wanted.
pub(crate) fn expect_text(rt: &impl Abort, what: &str, found: Option<String>, wanted: &str) {
    let found = found.expect(rt, what);
    if found.as_str() != wanted {
        panic!(rt; "{what}: {found:?}, and not {wanted:?}");
    }
}
