//! Example sessions of one endpoint, and served connections: tests of `hsms_ends`. They are in a crate of their own,
//! since a crate is proved again with its tests.
#![tactic(auto)]

#[cfg(test)]
mod tests;
