//! The events of a capture.

use crate::incomplete::Shortfall;
use crate::log_item::LogItem;
use capture_log::Pair;
use capture_pcap::Reason;

/// An event of a capture, at a packet or at the end of the file.
#[derive(Drop)]
pub enum Event {
    /// Both endpoints of the pair's connection log the item.
    Logged(Pair, LogItem),
    /// The pair's connection has no further events. The shortfall is what is missing of it.
    Ended(Pair, Option<Shortfall>),
    /// Data is missing that belongs to no known connection.
    Incomplete(Shortfall),
    /// A packet was skipped.
    Skipped(Reason),
}
