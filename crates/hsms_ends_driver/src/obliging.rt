//! A message handler that replies to everything.

use hsms_endpoint::{Answer, Desk};
use secs_text::Message;
use std::alloc::{AllocError, Global};

/// Answers each primary with a reply without an item.
#[derive(Clone, Copy, Debug)]
pub struct ReplyingDesk;

impl Desk for ReplyingDesk {
    ghost use Rattle.std.specs.Prelude.{None};
    ghost use Rattle.hsms_endpoint.specs.Answer.{replies};

    ghost answers = { λ desk message. replies None };

    fn answer(&self, _alloc: Global, _message: &Message) -> Result<Answer, AllocError> {
        Ok(Answer::Reply(None))
    }
}
