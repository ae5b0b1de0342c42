//! Logs of both endpoints of a connection, and the results of comparing them: tests of `hsms_compare`. They are in a
//! crate of their own, since a crate is proved again with its tests.
#![tactic(auto)]

#[cfg(test)]
mod tests;
