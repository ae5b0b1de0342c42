//! A message handler with replies from a script.

use crate::script_replies::Replies;
use hsms_endpoint::{Answer, Desk, TurnDesk};
use secs_text::Message;
use std::alloc::{AllocError, Global};

/// A message handler that returns the replies of a script, and otherwise the answer of another handler (SEMI E5).
///
/// A primary is answered with the item of a reply that has its stream and its function plus one. If several replies
/// match, they are used in order, and then the last one repeats. If none matches and one has its stream and function
/// 0, the primary is aborted without a message of stream 9. The other handler answers every other message. Neither
/// the W bit of a reply nor an odd function of it is considered.
#[derive(Drop)]
pub struct ScriptedDesk<D: Desk + Drop> {
    /// The replies of the script.
    pub replies: Replies,
    /// The handler that answers all other messages.
    pub own: D,
}

impl<D: Desk + Drop> TurnDesk for ScriptedDesk<D> {
    ghost use Rattle.hsms_ends.specs.ScriptedDesk.{scripted_answer};

    ghost answers_after = { λ desk. scripted_answer desk.replies (D.answers desk.own) };

    fn answer_after(
        &self,
        alloc: Global,
        message: &Message,
        before: u64,
    ) -> Result<Answer, AllocError> {
        let (stream, function) = (message.stream(), u16::from(message.function()));
        match self.replies.in_turn(stream, function + 1, before) {
            Some(reply) => replied(alloc, reply),
            None if self.replies.has(stream, 0) => Ok(Answer::Quiet),
            None => self.own.answer(alloc, message),
        }
    }
}

ghost use Rattle.std.specs.Prelude.{◌≡◌, IfOk};
ghost use Rattle.secs_text.specs.View.{content};
ghost use Rattle.hsms_endpoint.specs.Answer.{answered, replies as replies_by};

// Returns the answer with a reply's item.
fn replied(alloc: Global, reply: &Message) -> Result<Answer, AllocError>
    ensures { IfOk result (λ answer. answered answer ≡ replies_by (content reply.now).item) }
{
    match reply.item() {
        Some(item) => Ok(Answer::Reply(Some(item.copy(alloc)?))),
        None => Ok(Answer::Reply(None)),
    }
}
