//! The state of a request, entry by entry of both logs.

use crate::outcome::Outcome;
use crate::tracing::{closes, is_received};
use hsms_frame::Header;
use hsms_machine::{Entry, Event};

/// The number of entries of a log so far, and of those that receive and that send a frame.
#[derive(Clone, Copy, Debug, PartialEq, Eq)]
pub struct LogCounts {
    pub entries: u64,
    pub received: u64,
    pub sent: u64,
}

/// The progress of a request. `received_at` and `answered_at` are entries of the other endpoint's log, counted from
/// 0.
#[derive(Clone, Copy, Debug)]
pub enum RequestState {
    /// The other endpoint has not received it.
    InFlight,
    /// The other endpoint has accepted it at this time, with this header, and has not answered.
    Taken {
        received_at: u64,
        time: u64,
        request: Header,
    },
    /// The other endpoint has answered in time, with its frame of this number, and the own endpoint has not received
    /// the answer.
    Answered {
        received_at: u64,
        answered_at: u64,
        took: u64,
        number: u64,
    },
    /// Its outcome is final, whatever follows.
    Done(Outcome),
}

impl RequestState {
    ghost use Rattle.std.specs.Prelude.{◌≡◌, ◌≤◌, ◌<◌, ◌++◌, [], ◌∷◌, ℕ, List, length};
    ghost use Rattle.hsms_machine.specs.declared.entry.Entry.{Entry};
    ghost use Rattle.hsms_compare.specs.Conversation.{sent, received};
    ghost use Rattle.hsms_compare.specs.Outcome.{IsOutcome};
    ghost use Rattle.hsms_compare.specs.RequestState.{IsState, HasCounts, IsRequestAt, IsTimeOf};

    /// Returns the outcome so far.
    pub fn outcome(self) -> Outcome
        ensures { (own other : List Entry) (j limit number : ℕ)
            → IsRequestAt own j number → IsState own other j limit number self → IsOutcome own other j limit result }
    {
        match self {
            RequestState::InFlight => Outcome::NotReceived,
            RequestState::Taken { received_at, .. } => Outcome::Unanswered {
                received: received_at,
            },
            RequestState::Answered {
                received_at,
                answered_at,
                took,
                ..
            } => Outcome::ReplyNotReceived {
                received: received_at,
                answered: answered_at,
                took,
            },
            RequestState::Done(outcome) => outcome,
        }
    }

    /// Returns the state after the next entry of the other endpoint's log, which has these counts before it. `number`
    /// is the request's number among the frames that the own endpoint sent.
    pub fn after_other(
        self,
        number: u64,
        limit: u64,
        entry: &Entry,
        counts: LogCounts,
    ) -> RequestState
        ensures { (own other : List Entry) (j : ℕ) → IsRequestAt own j number → IsState own other j limit number self
            → HasCounts other counts → length (received own) ≤ counts.sent
            → IsState own (other ++ entry.now ∷ []) j limit number result }
    {
        match self {
            RequestState::InFlight => Self::from_in_flight(number, entry, counts),
            RequestState::Taken {
                received_at,
                time,
                request,
            } => Self::from_taken(received_at, time, request, limit, entry, counts),
            RequestState::Answered { .. } => self,
            RequestState::Done(_) => self,
        }
    }

    /// Returns the state after the next entry of the own log, which has these counts before it. `time` is the
    /// request's time.
    pub fn after_own(self, time: u64, entry: &Entry, counts: LogCounts) -> RequestState
        ensures { (own other : List Entry) (j limit number : ℕ)
            → IsRequestAt own j number → IsState own other j limit number self
            → HasCounts own counts → IsTimeOf own j time
            → IsState (own ++ entry.now ∷ []) other j limit number result }
    {
        match self {
            RequestState::InFlight => self,
            RequestState::Taken { .. } => self,
            RequestState::Answered {
                received_at,
                answered_at,
                took,
                number,
            } => {
                Self::from_answered(received_at, answered_at, took, number, time, entry, counts)
            }
            RequestState::Done(_) => self,
        }
    }

    fn from_in_flight(number: u64, entry: &Entry, counts: LogCounts) -> RequestState
        ensures { (own other : List Entry) (j limit : ℕ)
            → IsRequestAt own j number → IsState own other j limit number RequestState.InFlight
            → HasCounts other counts
            → IsState own (other ++ entry.now ∷ []) j limit number result }
    {
        if counts.received != number {
            return RequestState::InFlight;
        }
        match &entry.event {
            Event::Taken(frame) => RequestState::Taken {
                received_at: counts.entries,
                time: entry.time,
                request: frame.header,
            },
            Event::Discarded(_) => RequestState::Done(Outcome::Discarded {
                discarded: counts.entries,
            }),
            Event::Sent(_) => RequestState::InFlight,
            Event::Up => RequestState::InFlight,
            Event::T3(_) => RequestState::InFlight,
            Event::Cut(_) => RequestState::InFlight,
            Event::Down => RequestState::InFlight,
        }
    }

    fn from_taken(
        received_at: u64,
        time: u64,
        request: Header,
        limit: u64,
        entry: &Entry,
        counts: LogCounts,
    ) -> RequestState
        ensures { (own other : List Entry) (j number : ℕ) → IsRequestAt own j number
            → IsState own other j limit number (RequestState.Taken received_at time request)
            → HasCounts other counts → length (received own) ≤ counts.sent
            → IsState own (other ++ entry.now ∷ []) j limit number result }
    {
        if !closes(request, &entry.event) {
            return RequestState::Taken {
                received_at,
                time,
                request,
            };
        }
        let took = entry.time.saturating_sub(time);
        if took > limit {
            RequestState::Done(Outcome::AnsweredLate {
                received: received_at,
                answered: counts.entries,
                took,
            })
        } else {
            RequestState::Answered {
                received_at,
                answered_at: counts.entries,
                took,
                number: counts.sent,
            }
        }
    }

    fn from_answered(
        received_at: u64,
        answered_at: u64,
        took: u64,
        reply: u64,
        time: u64,
        entry: &Entry,
        counts: LogCounts,
    ) -> RequestState
        ensures { (own other : List Entry) (j limit number : ℕ) → IsRequestAt own j number
            → IsState own other j limit number (RequestState.Answered received_at answered_at took reply)
            → HasCounts own counts → IsTimeOf own j time
            → IsState (own ++ entry.now ∷ []) other j limit number result }
    {
        if counts.received == reply && is_received(&entry.event) {
            RequestState::Done(Outcome::Replied {
                received: received_at,
                answered: answered_at,
                took,
                reply: counts.entries,
                after: entry.time.saturating_sub(time),
            })
        } else {
            RequestState::Answered {
                received_at,
                answered_at,
                took,
                number: reply,
            }
        }
    }
}
