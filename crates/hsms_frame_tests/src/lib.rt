//! Tests of `hsms_frame`: messages in bytes, read, written and framed. They are a separate crate, because a crate is
//! proved again with its tests.
#![tactic(auto)]

#[cfg(test)]
mod tests;
