//! Logs of both endpoints of a connection, and the facts behind a contradiction: tests of `hsms_compare_repair`. They
//! are in a crate of their own, since a crate is proved again with its tests.
#![tactic(auto)]

#[cfg(test)]
mod tests;
