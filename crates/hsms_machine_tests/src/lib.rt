//! Tests of `hsms_machine`: example sessions that a tracker checks. They are a separate crate, because a crate is
//! proved again with its tests.
#![tactic(auto)]

#[cfg(test)]
mod tests;
