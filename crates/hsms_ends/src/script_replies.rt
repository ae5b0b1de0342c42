//! The replies of a script, by stream and function.

ghost use Rattle.std.specs.Prelude.{◌≡◌, ◌++◌, ◌∷◌, ℕ, [], if◌then◌else◌, is_some, option_map, IfOk, OnOk};
ghost use Rattle.hsms_ends.specs.ScriptedDesk.{IsGrouped, has_head, in_turn as nth_in_turn, replies_with, with_head};

use indexmap::IndexMap;
use secs_text::Message;
use std::alloc::{AllocError, Global};

/// The replies of a script, grouped by stream and function, so that a reply is found without a search.
pub struct Replies {
    groups: IndexMap<(u8, u16), Vec<Message>>,
}

// Written out so that a proof has one step for a dropped value.
impl Drop for Replies {
    fn drop(self) {
        let Replies { groups } = self;
        drop(groups);
    }
}

impl Replies {
    /// Groups the replies of a script.
    pub fn of(alloc: Global, messages: Vec<Message>) -> Result<Replies, AllocError>
        ensures { IfOk result (IsGrouped messages.items) }
    {
        let mut groups = IndexMap::new(alloc);
        for message in messages {
            add(alloc, &mut groups, message)?;
        }
        Ok(Replies { groups })
    }

    /// Returns the reply with this stream and function that is used after the given number of others: each in order,
    /// and then the last one repeats.
    pub fn in_turn(&self, stream: u8, function: u16, before: u64) -> Option<&Message>
        ensures { option_map (λ reply. reply.now) result ≡ nth_in_turn before (replies_with self.now stream function) }
    {
        let group = self.groups.get(&(stream, function))?;
        let last = group.len().checked_sub(1)?;
        group.get((before as usize).min(last))
    }

    /// Returns whether a reply has this stream and function.
    pub fn has(&self, stream: u8, function: u16) -> bool
        ensures { result ≡ is_some (nth_in_turn 0 (replies_with self.now stream function)) }
    {
        self.in_turn(stream, function, 0).is_some()
    }
}

// Appends a message to the group of its stream and function.
fn add(
    alloc: Global,
    groups: &mut IndexMap<(u8, u16), Vec<Message>>,
    message: Message,
) -> Result<(), AllocError>
    ensures { OnOk result ((stream function : ℕ) → with_head groups.new stream function
        ≡ with_head groups.old stream function ++ (if has_head stream function message then message ∷ [] else [])) }
{
    let head = (message.stream(), u16::from(message.function()));
    let mut group = match groups.swap_remove(&head) {
        Some(group) => group,
        None => Vec::new(alloc),
    };
    group.push(message)?;
    groups.insert(head, group)?;
    Ok(())
}
