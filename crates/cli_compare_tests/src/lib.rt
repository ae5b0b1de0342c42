//! Tests of `cli_compare`: the texts of two logs, and what is written of them. They are in a crate of their own, since a
//! crate is proved again with its tests.
#![tactic(auto)]

#[cfg(test)]
mod tests;
