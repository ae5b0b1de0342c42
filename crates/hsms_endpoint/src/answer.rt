//! Handlers that answer the messages that an endpoint accepts.

use secs_item::Item;
use secs_text::Message;
use std::alloc::{AllocError, Global};

/// What a message handler returns for a message (SEMI E5).
#[derive(Debug, Drop)]
pub enum Answer {
    /// A reply with this item, or without an item.
    Reply(Option<Item>),
    /// No reply.
    Quiet,
    /// The stream is not recognized.
    NoStream,
    /// The function is not recognized.
    NoFunction,
    /// The data is illegal.
    Illegal,
}

/// Answers messages. The answer is a function of the handler and the message.
pub trait Desk {
    ghost use Rattle.std.specs.Prelude.{◌≡◌, IfOk};
    ghost use Rattle.secs_text.specs.Content.{Content};
    ghost use Rattle.secs_text.specs.View.{content};
    ghost use Rattle.hsms_endpoint.specs.Answer.{Answered, answered};

    /// The answer to a message.
    ghost answers: { Self → Content → Answered };

    /// Answers a message. The only error is a failed allocation.
    fn answer(&self, alloc: Global, message: &Message) -> Result<Answer, AllocError>
        ensures { IfOk result (λ answer. answered answer ≡ answers self.now (content message.now)) };
}

/// Answers messages by count. The answer is a function of the handler, of the number of earlier messages with this
/// stream and function, and of the message. Each [`Desk`] is one: its answer does not depend on the number.
pub trait TurnDesk {
    ghost use Rattle.std.specs.Prelude.{◌≡◌, ℕ, IfOk};
    ghost use Rattle.secs_text.specs.Content.{Content};
    ghost use Rattle.secs_text.specs.View.{content};
    ghost use Rattle.hsms_endpoint.specs.Answer.{Answered, answered};

    /// The answer to a message after the given number of messages with its stream and function.
    ghost answers_after: { Self → ℕ → Content → Answered };

    /// Answers a message after the given number of messages with its stream and function in this connection. The only
    /// error is a failed allocation.
    fn answer_after(
        &self,
        alloc: Global,
        message: &Message,
        before: u64,
    ) -> Result<Answer, AllocError>
        ensures { IfOk result (λ answer. answered answer ≡ answers_after self.now before (content message.now)) };
}

impl<D: Desk> TurnDesk for D {
    ghost answers_after = { λ desk before. D.answers desk };

    fn answer_after(
        &self,
        alloc: Global,
        message: &Message,
        _before: u64,
    ) -> Result<Answer, AllocError> {
        self.answer(alloc, message)
    }
}
