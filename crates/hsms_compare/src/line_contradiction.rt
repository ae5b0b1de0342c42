//! The first contradiction of two logs that are read once.

use crate::comparison::is_sent;
use crate::pass::{PassEnd, Pause};
use crate::reading::{Entries, ReadFault};
use hsms_machine::Role;
use std::alloc::Global;

/// A contradiction of two logs, by the line numbers of its entries.
#[derive(Clone, Copy, Debug, PartialEq, Eq)]
pub enum LineContradiction {
    /// This endpoint's entry at the line `received` receives another frame than the other one's at the line `sent`
    /// sends, and both have the same number.
    Differs {
        receiver: Role,
        sent: u64,
        received: u64,
    },
    /// This endpoint's entry at the line `received` receives one frame more than the other log sends in all.
    Unsent {
        receiver: Role,
        received: u64,
    },
    /// The lines `host` and `equipment` each receive a frame that the other log sends only after the other line, at
    /// the lines `equipment_from` and `host_from`: no history has both orders.
    Order {
        host: u64,
        host_from: u64,
        equipment: u64,
        equipment_from: u64,
    },
}

impl LineContradiction {
    ghost use Rattle.std.specs.Prelude.{◌≡◌, ℕ, List, Bool, true, false, Some, None, IfOk, OnOk};
    ghost use Rattle.hsms_compare.specs.Conversation.{Line};
    ghost use Rattle.hsms_compare.specs.LineContradiction.{FirstByLines};
    ghost use Rattle.hsms_compare.specs.InnerPasses.{HavePaused, IsFirstSent};
    ghost use Rattle.hsms_compare.specs.declared.pass.Pause.TheVariants.{Waits};
    ghost use Rattle.hsms_compare.specs.declared.line_contradiction.LineContradiction.TheVariants.{Unsent};

    /// Returns the first contradiction of the logs of one connection, by line numbers. Returns `None` if they agree
    /// with what may follow them. Reads each log once, and does not read on after a contradiction.
    ///
    /// # Errors
    ///
    /// Returns the error of a reader, or `Memory` if an allocation fails.
    pub fn first<H: Entries, E: Entries>(
        alloc: Global,
        host: &mut H,
        equipment: &mut E,
    ) -> Result<Option<LineContradiction>, ReadFault>
        ensures found { IfOk result (λ found. (h e : List Line) (host_more equipment_more : Bool)
            → H.left host.old h host_more → E.left equipment.old e equipment_more
            → FirstByLines host_more equipment_more h e found) }
        ensures host_text { OnOk result ((text : List ℕ) → H.reads host.old text → H.reads host.new text) }
        ensures equipment_text { OnOk result ((text : List ℕ) → E.reads equipment.old text → E.reads equipment.new text) }
    {
        match PassEnd::read(alloc, host, equipment)? {
            PassEnd::Differs(receiver, sent, received) => Ok(Some(LineContradiction::Differs {
                receiver,
                sent,
                received,
            })),
            PassEnd::Stopped(host_pause, equipment_pause) => {
                Self::of_paused(alloc, host, host_pause, equipment, equipment_pause)
            }
        }
    }

    /// Returns the contradiction if neither log receives a frame that differs.
    fn of_paused<H: Entries, E: Entries>(
        alloc: Global,
        host: &mut H,
        host_pause: Pause,
        equipment: &mut E,
        equipment_pause: Pause,
    ) -> Result<Option<LineContradiction>, ReadFault>
        ensures found { IfOk result (λ found. (h e h_left e_left : List Line) (host_more equipment_more : Bool)
            → H.left host.old h_left host_more → E.left equipment.old e_left equipment_more
            → HavePaused h e h_left e_left host_pause equipment_pause → FirstByLines host_more equipment_more h e found) }
        ensures host_text { OnOk result ((text : List ℕ) → H.reads host.old text → H.reads host.new text) }
        ensures equipment_text { OnOk result ((text : List ℕ) → E.reads equipment.old text → E.reads equipment.new text) }
    {
        match host_pause {
            Pause::Done => match equipment_pause {
                Pause::Done => Ok(None),
                Pause::Waits(received) => Ok(Self::unsent(
                    host.is_open(),
                    Role::Equipment,
                    received,
                )),
            },
            Pause::Waits(host_line) => match equipment_pause {
                Pause::Done => Ok(Self::unsent(equipment.is_open(), Role::Host, host_line)),
                Pause::Waits(equipment_line) => {
                    Self::of_waiting(alloc, host, host_line, equipment, equipment_line)
                }
            },
        }
    }

    /// Returns the contradiction if each log waits for a frame.
    fn of_waiting<H: Entries, E: Entries>(
        alloc: Global,
        host: &mut H,
        host_line: u64,
        equipment: &mut E,
        equipment_line: u64,
    ) -> Result<Option<LineContradiction>, ReadFault>
        ensures found { IfOk result (λ found. (h e h_left e_left : List Line) (host_more equipment_more : Bool)
            → H.left host.old h_left host_more → E.left equipment.old e_left equipment_more
            → HavePaused h e h_left e_left (Waits host_line) (Waits equipment_line)
            → FirstByLines host_more equipment_more h e found) }
        ensures host_text { OnOk result ((text : List ℕ) → H.reads host.old text → H.reads host.new text) }
        ensures equipment_text { OnOk result ((text : List ℕ) → E.reads equipment.old text → E.reads equipment.new text) }
    {
        let Some(host_from) = Self::first_sent(alloc, equipment)? else {
            return Ok(Some(LineContradiction::Unsent {
                receiver: Role::Host,
                received: host_line,
            }));
        };
        let Some(equipment_from) = Self::first_sent(alloc, host)? else {
            return Ok(Some(LineContradiction::Unsent {
                receiver: Role::Equipment,
                received: equipment_line,
            }));
        };
        Ok(Some(LineContradiction::Order {
            host: host_line,
            host_from,
            equipment: equipment_line,
            equipment_from,
        }))
    }

    /// Returns that a frame was not sent, unless the sender's log may have more.
    fn unsent(is_open: bool, receiver: Role, received: u64) -> Option<LineContradiction>
        ensures open { is_open ≡ true → result ≡ None }
        ensures closed { is_open ≡ false → result ≡ Some (Unsent receiver received) }
    {
        if is_open {
            return None;
        }
        Some(LineContradiction::Unsent { receiver, received })
    }

    /// Reads a log up to the next frame that it sends, and returns that line.
    fn first_sent<R: Entries>(alloc: Global, reader: &mut R) -> Result<Option<u64>, ReadFault>
        ensures sent { IfOk result (λ sent. (lines : List Line) (more : Bool) → R.left reader.old lines more → IsFirstSent lines sent) }
        ensures text { OnOk result ((text : List ℕ) → R.reads reader.old text → R.reads reader.new text) }
    {
        loop {
            match reader.next(alloc)? {
                None => return Ok(None),
                Some(next) => {
                    if is_sent(&next.entry.event) {
                        return Ok(Some(next.position));
                    }
                }
            }
        }
    }
}
