mod connections;
mod joined;
mod packets;

use std::alloc::{AllocError, Global};
use std::fmt::Debug;
use std::process::Abort;

// Checks a condition. Each assertion costs proof time where it is written, so it is written once.
fn assert_so(rt: &impl Abort, is_so: bool, what: &str) {
    assert!(rt; is_so, "{what}");
}

// Checks how Debug writes a value. A constant is followed through the function that names it, so another function
// iterates over a table.
fn assert_named<T: Debug>(
    rt: &impl Abort,
    alloc: Global,
    value: &T,
    want: &str,
) -> Result<(), AllocError> {
    let name = format!(in alloc; "{value:?}")?;
    assert_so(rt, name.as_str() == want, want);
    Ok(())
}
