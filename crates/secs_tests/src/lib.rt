//! Tests of `secs_item` and `secs_text`: items and messages of SEMI E5, encoded to bytes and printed as notation. They
//! have a crate of their own, since a crate is proved once more with its tests.
#![tactic(auto)]

#[cfg(test)]
mod tests;
