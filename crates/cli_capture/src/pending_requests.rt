//! What both ends have asked for.

ghost use Rattle.std.specs.Prelude.{◌≡◌, OnOk};
ghost use Rattle.capture_midstream.specs.Requests.{is_left_out};
ghost use Rattle.capture_midstream.specs.Assumption.{assumed_by};
ghost use Rattle.cli_capture.specs.PendingRequests.{KnowsBoth, Spoken, nothing_spoken, spoken_to, with_message};

use capture_midstream::{Assumption, Requests, assumed_by};
use capture_tcp::Side;
use hsms_frame::Header;
use std::alloc::{AllocError, Global};

/// What each end has asked for.
#[derive(Drop)]
pub struct Said {
    active: Requests,
    passive: Requests,
}

impl Said {
    /// Nothing so far.
    pub fn new(alloc: Global) -> Said
        ensures { KnowsBoth nothing_spoken result }
    {
        Said {
            active: Requests::new(alloc),
            passive: Requests::new(alloc),
        }
    }

    /// An end sent a further message.
    pub fn note(&mut self, from: Side, message: Header) -> Result<(), AllocError>
        ensures { (spoken : Spoken) → KnowsBoth spoken self.old
            → OnOk result (KnowsBoth (with_message from message spoken) self.new) }
    {
        match from {
            Side::Active => self.active.note(message),
            Side::Passive => self.passive.note(message),
        }
    }

    /// What a message of an end says of what stood before, if it decides that.
    pub fn decided_by(&self, from: Side, message: Header) -> Option<Assumption>
        ensures { (spoken : Spoken) → KnowsBoth spoken self.now
            → result ≡ assumed_by message (spoken_to from spoken) }
    {
        match from {
            Side::Active => assumed_by(message, &self.passive),
            Side::Passive => assumed_by(message, &self.active),
        }
    }

    /// Whether a message of an end is left out, up to T3 behind a time.
    pub fn leaves_out(&self, from: Side, message: Header, begun: u64, t3: u32, time: u64) -> bool
        ensures { (spoken : Spoken) → KnowsBoth spoken self.now
            → result ≡ is_left_out message (spoken_to from spoken) begun t3 time }
    {
        match from {
            Side::Active => self.passive.leaves_out(message, begun, t3, time),
            Side::Passive => self.active.leaves_out(message, begun, t3, time),
        }
    }
}
