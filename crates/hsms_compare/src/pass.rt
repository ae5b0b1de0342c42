//! One pass over two logs, up to the last entries that agree.

use crate::merge::Merge;
use crate::reading::{Entries, NumberedEntry, ReadFault};
use crate::stop::MergeResult;
use hsms_machine::Role;
use std::alloc::{AllocError, Global};

/// Why a log goes no further, unless it receives another frame than the one that was sent.
#[derive(Clone, Copy, Debug)]
pub enum Pause {
    /// It has no more entries.
    Done,
    /// The entry at this position receives a frame, and the other log has sent no frame that is not received yet.
    Waits(u64),
}

/// The next step of a pass over two logs.
#[derive(Clone, Copy, Debug)]
pub enum Turn {
    /// The next entry of this endpoint's log is merged.
    Merged(Role),
    /// The entry of this endpoint at the second position receives another frame than the one that the other log sent,
    /// with the entry at the first position.
    Differs(Role, u64, u64),
    /// Neither log goes further: the host's, and equipment's.
    Stopped(Pause, Pause),
}

/// The result of offering the next entry of one log to a merge.
#[derive(Clone, Copy, Debug)]
pub enum Offered {
    Takes(Turn),
    Stops(Pause),
}

/// The end of a pass over two logs.
#[derive(Clone, Copy, Debug)]
pub enum PassEnd {
    /// As in `Turn`.
    Differs(Role, u64, u64),
    /// As in `Turn`.
    Stopped(Pause, Pause),
}

impl PassEnd {
    ghost use Rattle.std.specs.Prelude.{ℕ, List, Bool, IfOk, OnOk};
    ghost use Rattle.hsms_machine.specs.declared.settings.Role.TheVariants.{Host};
    ghost use Rattle.hsms_compare.specs.Conversation.{Line};
    ghost use Rattle.hsms_compare.specs.Merge.{IsMergeOf};
    ghost use Rattle.hsms_compare.specs.InnerPasses.{HasStopped, IsOffered, IsTurn, TakesOf, TurnsOf};

    /// Reads the logs of one connection up to the last entries that agree, or to a frame that differs. Equipment goes
    /// first if frames are in flight to it, so no more is buffered than the frames in flight and one entry of each log.
    ///
    /// # Errors
    ///
    /// Returns the error of a reader, or `Memory` if an allocation fails.
    pub fn read<H: Entries, E: Entries>(
        alloc: Global,
        host: &mut H,
        equipment: &mut E,
    ) -> Result<PassEnd, ReadFault>
        ensures pass { IfOk result (λ end. (h e : List Line) (host_more equipment_more : Bool)
            → H.left host.old h host_more → E.left equipment.old e equipment_more
            → (h_left e_left : List Line) × H.left host.new h_left host_more × E.left equipment.new e_left equipment_more
            × HasStopped h e h_left e_left end) }
        ensures host_text { OnOk result ((text : List ℕ) → H.reads host.old text → H.reads host.new text) }
        ensures equipment_text { OnOk result ((text : List ℕ) → E.reads equipment.old text → E.reads equipment.new text) }
    {
        let mut merge = Merge::new(alloc);
        let mut host_next = host.next(alloc)?;
        let mut equipment_next = equipment.next(alloc)?;
        loop {
            match Self::turn(alloc, &mut merge, &host_next, &equipment_next)? {
                Turn::Merged(Role::Host) => host_next = host.next(alloc)?,
                Turn::Merged(Role::Equipment) => equipment_next = equipment.next(alloc)?,
                Turn::Differs(end, sent, received) => {
                    return Ok(PassEnd::Differs(end, sent, received));
                }
                Turn::Stopped(host_pause, equipment_pause) => {
                    return Ok(PassEnd::Stopped(host_pause, equipment_pause));
                }
            }
        }
    }

    /// Merges the next entry of one log, if one agrees.
    fn turn(
        alloc: Global,
        merge: &mut Merge,
        host_next: &Option<NumberedEntry>,
        equipment_next: &Option<NumberedEntry>,
    ) -> Result<Turn, AllocError>
        ensures turn { IfOk result (λ turn. (h e : List Line) → IsMergeOf Host merge.old h e
            → IsTurn h e host_next.now equipment_next.now merge.old turn merge.new) }
        ensures some { IfOk result (TurnsOf host_next.now equipment_next.now) }
    {
        if merge.in_flight(Role::Equipment) == 0 {
            return Self::host_first(alloc, merge, host_next, equipment_next);
        }
        match Self::offer(alloc, merge, Role::Equipment, equipment_next)? {
            Offered::Takes(turn) => Ok(turn),
            Offered::Stops(_) => Self::host_first(alloc, merge, host_next, equipment_next),
        }
    }

    /// Merges the next entry of the host's log, if it agrees, and otherwise that of equipment's.
    fn host_first(
        alloc: Global,
        merge: &mut Merge,
        host_next: &Option<NumberedEntry>,
        equipment_next: &Option<NumberedEntry>,
    ) -> Result<Turn, AllocError>
        ensures turn { IfOk result (λ turn. (h e : List Line) → IsMergeOf Host merge.old h e
            → IsTurn h e host_next.now equipment_next.now merge.old turn merge.new) }
        ensures some { IfOk result (TurnsOf host_next.now equipment_next.now) }
    {
        match Self::offer(alloc, merge, Role::Host, host_next)? {
            Offered::Takes(turn) => Ok(turn),
            Offered::Stops(host_pause) => {
                match Self::offer(alloc, merge, Role::Equipment, equipment_next)? {
                    Offered::Takes(turn) => Ok(turn),
                    Offered::Stops(equipment_pause) => {
                        Ok(Turn::Stopped(host_pause, equipment_pause))
                    }
                }
            }
        }
    }

    /// Merges the entry that was read, if there is one and it agrees.
    fn offer(
        alloc: Global,
        merge: &mut Merge,
        end: Role,
        next: &Option<NumberedEntry>,
    ) -> Result<Offered, AllocError>
        ensures offer { IfOk result (λ offer. (own other : List Line) → IsMergeOf end merge.old own other
            → IsOffered own other end next.now merge.old offer merge.new) }
        ensures some { IfOk result (TakesOf end next.now) }
    {
        let Some(next) = next else {
            return Ok(Offered::Stops(Pause::Done));
        };
        match merge.add(alloc, end, next.position, &next.entry)? {
            MergeResult::Merged => Ok(Offered::Takes(Turn::Merged(end))),
            MergeResult::NoneInFlight => Ok(Offered::Stops(Pause::Waits(next.position))),
            MergeResult::OtherInFlight(sent) => Ok(Offered::Takes(Turn::Differs(
                end,
                sent,
                next.position,
            ))),
        }
    }
}
