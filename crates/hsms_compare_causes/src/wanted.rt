//! What a log is searched for.

use crate::events::{
    answers, closes_accepted, closes_sent, ends_connection, ends_session, is_cut_by_t6,
    is_received, is_sent,
};
use crate::group::Group;
use hsms_frame::Header;
use hsms_machine::Entry;

/// What a log is searched for.
#[derive(Clone, Copy)]
pub enum Wanted {
    /// An entry that closes the transaction of this request, which the log sends.
    Closing(Header),
    /// An entry that sends an answer to this request, or a Reject.
    Conclusion(Header),
    /// An entry that receives an answer to this request, accepted or discarded.
    Reply(Header),
    /// A `cut t6`, no earlier than this limit after a time.
    Cut { since: u64, limit: u64 },
    /// An entry that sends a frame.
    Sent,
    /// An entry that receives a frame, accepted or discarded.
    Received,
    /// An entry that ends the session.
    SessionEnd,
    /// An entry that ends the session or the connection.
    ConnectionEnd,
}

impl Wanted {
    ghost use Rattle.std.specs.Prelude.{◌≡◌, IfSome, IsTrue};
    ghost use Rattle.hsms_machine.specs.declared.entry.Entry.{Entry as LogEntry};
    ghost use Rattle.hsms_compare_causes.specs.InnerSearch.{is_wanted};
    ghost use Rattle.hsms_compare_causes.specs.InnerGroups.{is_in};

    /// Returns whether this is searched for.
    pub fn is(self, entry: &Entry) -> bool
        ensures { result ≡ is_wanted self entry.now }
    {
        match self {
            Wanted::Closing(request) => closes_sent(request, &entry.event),
            Wanted::Conclusion(request) => closes_accepted(request, &entry.event),
            Wanted::Reply(request) => answers(request, &entry.event),
            Wanted::Cut { since, limit } => {
                is_cut_by_t6(&entry.event) && limit <= entry.time.saturating_sub(since)
            }
            Wanted::Sent => is_sent(&entry.event),
            Wanted::Received => is_received(&entry.event),
            Wanted::SessionEnd => ends_session(&entry.event),
            Wanted::ConnectionEnd => ends_connection(&entry.event),
        }
    }

    /// Returns the group of all entries that are searched for, if they are of one group.
    pub fn group(self) -> Option<Group>
        ensures { IfSome result (λ group. (entry : LogEntry) → IsTrue (is_wanted self entry) → IsTrue (is_in group entry)) }
    {
        match self {
            Wanted::Closing(request) => Some(Group::System(request.system)),
            Wanted::Conclusion(request) => Some(Group::System(request.system)),
            Wanted::Reply(request) => Some(Group::System(request.system)),
            Wanted::Cut { .. } => Some(Group::Ends),
            Wanted::Sent => None,
            Wanted::Received => None,
            Wanted::SessionEnd => Some(Group::Ends),
            Wanted::ConnectionEnd => Some(Group::Ends),
        }
    }
}
