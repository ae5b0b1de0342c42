//! Where both logs have a request and its answer.

ghost use Rattle.std.specs.Prelude.{◌≡◌};
ghost use Rattle.hsms_machine.specs.Entry.{entry_at};
ghost use Rattle.hsms_compare_causes.specs.Events.{is_discarded as is_discarded_by};
ghost use Rattle.hsms_compare_causes.specs.Trace.{IsConclusion, IsConnectionEnd, IsReply, IsTrace};

use crate::events::is_discarded;
use crate::request_trace::RequestTrace;
use crate::traced_log::TracedLog;
use crate::wanted::Wanted;
use hsms_frame::Header;
use hsms_machine::Entry;

/// Returns where both logs have a request, which the own entry at an index sends, and its answer.
pub fn trace(own: &TracedLog, other: &TracedLog, index: usize, request: Header) -> RequestTrace
    ensures { IsTrace own.now other.now index request result }
{
    let received = own.matched(index).index();
    let answered = conclusion(other, received, request);
    RequestTrace {
        received,
        answered,
        reply: reply(own, other, index, request, answered),
        ended: connection_end(other, received, answered),
    }
}

/// Returns the first entry after the one that receives a request which sends an answer or a Reject.
fn conclusion(other: &TracedLog, received: Option<usize>, request: Header) -> Option<usize>
    ensures { IsConclusion other.now request received result }
{
    match received {
        Some(index) => other
            .entries
            .first_after(index, Wanted::Conclusion(request)),
        None => None,
    }
}

/// Returns the own entry that receives the answer. If the other log has none, the first that receives one.
fn reply(
    own: &TracedLog,
    other: &TracedLog,
    index: usize,
    request: Header,
    answered: Option<usize>,
) -> Option<usize>
    ensures { IsReply own.now other.now index request answered result }
{
    match answered {
        Some(answer) => other.matched(answer).index(),
        None => own.entries.first_after(index, Wanted::Reply(request)),
    }
}

/// Returns the first entry after the one that receives a request which ends the session or the connection, if the
/// other log has no answer.
fn connection_end(
    other: &TracedLog,
    received: Option<usize>,
    answered: Option<usize>,
) -> Option<usize>
    ensures { IsConnectionEnd other.now received answered result }
{
    match received {
        Some(index) => match answered {
            Some(_) => None,
            None => other.entries.first_after(index, Wanted::ConnectionEnd),
        },
        None => None,
    }
}

/// Returns whether the entry at an index discards a frame.
pub fn is_discarded_at(log: &[Entry], index: usize) -> bool
    ensures { result ≡ is_discarded_by (entry_at log.now index).event }
{
    index < log.len() && is_discarded(&log[index].event)
}
