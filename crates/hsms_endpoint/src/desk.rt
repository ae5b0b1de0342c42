//! The message handlers of a host and of equipment.

use crate::answer::{Answer, Desk};
use secs_item::Item;
use secs_text::Message;
use std::alloc::{AllocError, Global};

/// A host's message handler (SEMI E5). It answers S1F1, S1F13 and S2F25.
#[derive(Clone, Copy, Debug)]
pub struct HostDesk;

impl Desk for HostDesk {
    ghost use Rattle.hsms_endpoint.specs.Desk.{host_answer};

    ghost answers = { λ desk message. host_answer message };

    fn answer(&self, alloc: Global, message: &Message) -> Result<Answer, AllocError> {
        match (message.stream(), message.function()) {
            (1, 1) => Ok(Answer::Reply(Some(Item::List(Vec::new(alloc))))),
            (1, 13) => Ok(Answer::Reply(Some(acknowledged(alloc, Item::List(Vec::new(alloc)))?))),
            (2, 25) => looped_back(alloc, message.item()),
            (1, _) | (2, _) => Ok(Answer::NoFunction),
            (9, _) => Ok(Answer::Quiet),
            _ => Ok(Answer::NoStream),
        }
    }
}

/// Equipment's message handler (SEMI E5). It answers S1F1, S1F13 and S2F25, and sends its model and software
/// revision.
#[derive(Debug, Drop)]
pub struct EquipmentDesk {
    pub mdln: Vec<u8>,
    pub softrev: Vec<u8>,
}

impl Desk for EquipmentDesk {
    ghost use Rattle.hsms_endpoint.specs.Desk.{equipment_answer};

    ghost answers = { λ desk message. equipment_answer desk.mdln.items desk.softrev.items message };

    fn answer(&self, alloc: Global, message: &Message) -> Result<Answer, AllocError> {
        match (message.stream(), message.function()) {
            (1, 1) => Ok(Answer::Reply(Some(self.identity(alloc)?))),
            (1, 13) => Ok(Answer::Reply(Some(acknowledged(alloc, self.identity(alloc)?)?))),
            (2, 25) => looped_back(alloc, message.item()),
            (1, _) | (2, _) => Ok(Answer::NoFunction),
            _ => Ok(Answer::NoStream),
        }
    }
}

impl EquipmentDesk {
    ghost use Rattle.std.specs.Prelude.{◌≡◌, IfOk};
    ghost use Rattle.secs_item.specs.Item.{view};
    ghost use Rattle.hsms_endpoint.specs.Desk.{equipment_identity};

    /// Returns the item of S1F2.
    fn identity(&self, alloc: Global) -> Result<Item, AllocError>
        ensures { IfOk result (λ item. view item ≡ equipment_identity self.now.mdln.items self.now.softrev.items) }
    {
        let mdln = Vec::from_slice(alloc, &self.mdln)?;
        let softrev = Vec::from_slice(alloc, &self.softrev)?;
        Ok(Item::List(vec![in alloc; Item::Ascii(mdln), Item::Ascii(softrev)]?))
    }
}

ghost use Rattle.std.specs.Prelude.{◌≡◌, IfOk, option_map};
ghost use Rattle.secs_item.specs.Item.{view};
ghost use Rattle.hsms_endpoint.specs.Answer.{answered};
ghost use Rattle.hsms_endpoint.specs.Desk.{acknowledged as acknowledgement, looped_back as loopback};

/// Returns the item of S1F14.
fn acknowledged(alloc: Global, identity: Item) -> Result<Item, AllocError>
    ensures { IfOk result (λ item. view item ≡ acknowledgement (view identity)) }
{
    let accepted = vec![in alloc; 0]?;
    Ok(Item::List(vec![in alloc; Item::Binary(accepted), identity]?))
}

/// Returns the answer to S2F25.
fn looped_back(alloc: Global, item: Option<&Item>) -> Result<Answer, AllocError>
    ensures { IfOk result (λ answer. answered answer ≡ loopback (option_map (λ i. view i.now) item.entry)) }
{
    match item {
        Some(Item::Binary(octets)) => Ok(Answer::Reply(Some(Item::Binary(Vec::from_slice(
            alloc, octets,
        )?)))),
        _ => Ok(Answer::Illegal),
    }
}
