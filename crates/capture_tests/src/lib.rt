//! Tests of `capture_pcap`, `capture_tcp` and `capture_midstream`: capture files, packets and connections with literal
//! bytes, and bytes within which a session starts. They are in a crate of their own, since a crate is proved once more
//! with its tests.
#![tactic(auto)]

#[cfg(test)]
mod tests;
