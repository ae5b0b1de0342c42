//! Reasons why a log cannot be merged any further.

/// Why a log cannot be merged any further with the other one.
#[derive(Clone, Copy, Debug, PartialEq, Eq)]
pub enum Stop {
    /// It has no more entries.
    Ended,
    /// Its next entry receives a frame, and the other log has sent no frame that is not received yet.
    Waits,
    /// Its next entry receives another frame than the one that the other log sent, with the entry at this index.
    OtherSent(u64),
}

/// The result of merging the next entry of a log.
#[derive(Clone, Copy, Debug, PartialEq, Eq)]
pub enum MergeResult {
    /// It is merged.
    Merged,
    /// It receives a frame, and none is in flight.
    NoneInFlight,
    /// It receives another frame than the first one in flight, which was sent by the entry at this position.
    OtherInFlight(u64),
}
