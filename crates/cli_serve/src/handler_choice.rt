//! The message handler of the served end.

ghost use Rattle.std.specs.Prelude.{IfOk};
ghost use Rattle.cli_serve.specs.Serving.{IsHandlerOf};

use cli_options::Service;
use hsms_ends::{Answer, EquipmentDesk, HostDesk, Replies, ScriptedDesk, TurnDesk};
use hsms_machine::Role;
use secs_text::Message;
use std::alloc::{AllocError, Global};

/// A host's or equipment's message handler, with the replies of a script.
#[derive(Drop)]
pub enum ChosenHandler {
    Host(ScriptedDesk<HostDesk>),
    Equipment(ScriptedDesk<EquipmentDesk>),
}

impl TurnDesk for ChosenHandler {
    ghost use Rattle.cli_serve.specs.Serving.{own_answer};

    ghost answers_after = { own_answer };

    fn answer_after(
        &self,
        alloc: Global,
        message: &Message,
        before: u64,
    ) -> Result<Answer, AllocError> {
        match self {
            ChosenHandler::Host(desk) => desk.answer_after(alloc, message, before),
            ChosenHandler::Equipment(desk) => desk.answer_after(alloc, message, before),
        }
    }
}

/// Returns the message handler of a service with these replies: a host's, or equipment's with its model and software
/// revision.
pub fn desk_of(
    alloc: Global,
    service: &Service<'_>,
    replies: Vec<Message>,
) -> Result<ChosenHandler, AllocError>
    ensures { IfOk result (IsHandlerOf service.now replies.items) }
{
    let replies = Replies::of(alloc, replies)?;
    match service.settings.role() {
        Role::Host => Ok(ChosenHandler::Host(ScriptedDesk {
            replies,
            own: HostDesk,
        })),
        Role::Equipment => {
            let own = EquipmentDesk {
                mdln: Vec::from_slice(alloc, service.mdln.as_bytes())?,
                softrev: Vec::from_slice(alloc, service.softrev.as_bytes())?,
            };
            Ok(ChosenHandler::Equipment(ScriptedDesk { replies, own }))
        }
    }
}
