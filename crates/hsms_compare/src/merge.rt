//! The merge of two logs, entry by entry.

use crate::channel::Channel;
use crate::stop::MergeResult;
use hsms_machine::{Entry, Event, Role};
use std::alloc::{AllocError, Global};

/// Two logs of one connection, merged so far: what is merged agrees, and these frames are in flight between the
/// endpoints. It owns no log.
#[derive(Drop)]
pub struct Merge {
    to_host: Channel,
    to_equipment: Channel,
}

impl Merge {
    ghost use Rattle.std.specs.Prelude.{◌≡◌, ◌+◌, List, [], length, IfOk, OnErr};
    ghost use Rattle.hsms_compare.specs.Conversation.{Line, entries, sent, received};
    ghost use Rattle.hsms_compare.specs.Merge.{IsMergeOf, IsMergeStep};
    ghost use Rattle.hsms_compare.specs.InnerMerge.{IsStep};
    ghost use Rattle.hsms_machine.specs.declared.settings.Role.TheVariants.{Host};

    /// Returns the merge of two empty logs.
    pub fn new(alloc: Global) -> Merge
        ensures { IsMergeOf Host result [] [] }
    {
        Merge {
            to_host: Channel::new(alloc),
            to_equipment: Channel::new(alloc),
        }
    }

    /// Drops the frames in flight: the next entries are those of another connection.
    pub fn clear(&mut self)
        ensures { IsMergeOf Host self.new [] [] }
    {
        self.to_host.clear();
        self.to_equipment.clear();
    }

    /// Returns the number of frames in flight to this endpoint. At the end of a connection these frames are lost.
    pub fn in_flight(&self, end: Role) -> usize
        ensures { (own other : List Line) → IsMergeOf end self.now own other
            → result + length (received (entries own)) ≡ length (sent (entries other)) }
    {
        match end {
            Role::Host => self.to_host.len(),
            Role::Equipment => self.to_equipment.len(),
        }
    }

    /// Adds the next entry of this endpoint's log if it still agrees with what is merged. Otherwise the merge does
    /// not change. The entries of both logs may be added in any order. `position` names the entry, as an index or a
    /// line number does.
    ///
    /// # Errors
    ///
    /// Returns `AllocError` if an allocation for a sent frame fails. The merge does not change.
    pub fn add(
        &mut self,
        alloc: Global,
        end: Role,
        position: u64,
        entry: &Entry,
    ) -> Result<MergeResult, AllocError>
        ensures step { IfOk result (λ answer. (own other : List Line) → IsMergeOf end self.old own other
            → IsMergeStep own other end (record { position = position; entry = entry.now }) self.old answer self.new) }
        ensures err { OnErr result (self.new ≡ self.old) }
    {
        match end {
            Role::Host => Self::step(
                alloc,
                &mut self.to_host,
                &mut self.to_equipment,
                position,
                entry,
            ),
            Role::Equipment => Self::step(
                alloc,
                &mut self.to_equipment,
                &mut self.to_host,
                position,
                entry,
            ),
        }
    }

    /// Receives the entry's frame from the incoming channel, or sends it to the outgoing one.
    fn step(
        alloc: Global,
        coming: &mut Channel,
        outbound: &mut Channel,
        position: u64,
        entry: &Entry,
    ) -> Result<MergeResult, AllocError>
        ensures follows { IfOk result (λ answer.
            IsStep coming.old outbound.old (record { position = position; entry = entry.now })
            answer coming.new outbound.new) }
        ensures err { OnErr result (coming.new ≡ coming.old) }
        ensures err_outbound { OnErr result (outbound.new ≡ outbound.old) }
    {
        match &entry.event {
            Event::Sent(frame) => {
                outbound.send(alloc, position, frame)?;
                Ok(MergeResult::Merged)
            }
            Event::Taken(frame) => Ok(coming.receive(frame)),
            Event::Discarded(frame) => Ok(coming.receive(frame)),
            Event::Up => Ok(MergeResult::Merged),
            Event::T3(_) => Ok(MergeResult::Merged),
            Event::Cut(_) => Ok(MergeResult::Merged),
            Event::Down => Ok(MergeResult::Merged),
        }
    }
}
