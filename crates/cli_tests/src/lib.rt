//! Tests of the output of the command: of `cli_filters` and `cli_explain`. They are in a crate of their own because a
//! crate is proved once more with its tests.
#![tactic(auto)]

#[cfg(test)]
mod tests;
