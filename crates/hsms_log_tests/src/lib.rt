//! Tests of `hsms_log`: logs and their verdicts. They are a separate crate, because a crate is proved again with its
//! tests.
#![tactic(auto)]

#[cfg(test)]
mod tests;
