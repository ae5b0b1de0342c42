mod items;
mod notation;
mod owned;

use std::alloc::{AllocError, Global};
use std::fmt::Debug;
use std::process::Abort;

// An assertion costs proof time in each function that contains it, so both assertions are written here once. The
// `Debug` text of a value shows all of it, and one text is compared in less time than its parts. The proof follows a
// constant through the function that names it, so a separate function iterates over each table.

/// Checks a condition.
fn assert_so(rt: &impl Abort, is_so: bool, what: &str) {
    assert!(rt; is_so, "{what}");
}

/// Returns the `Debug` text of a value.
fn named<T: Debug>(alloc: Global, value: &T) -> Result<String, AllocError> {
    format!(in alloc; "{value:?}")
}

/// Checks the `Debug` text of a value.
fn assert_named<T: Debug>(
    rt: &impl Abort,
    alloc: Global,
    value: &T,
    want: &str,
) -> Result<(), AllocError> {
    let name = named(alloc, value)?;
    assert_so(rt, name.as_str() == want, want);
    Ok(())
}
