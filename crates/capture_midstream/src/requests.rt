//! Requests that a capture has, and responses to others.

ghost use Rattle.std.specs.Prelude.{◌≡◌};
ghost use Rattle.capture_midstream.specs.Requests.{is_response};

use hsms_frame::{Header, Kind, kind};
use indexmap::IndexSet;
use std::alloc::{AllocError, Global};

/// What one end has asked for since the capture began, by system bytes, each kind of request by itself.
pub struct Requests {
    primaries: IndexSet<u32>,
    selects: IndexSet<u32>,
    linktests: IndexSet<u32>,
}

// Written out: a proof over requests that are dropped then has one step for each set, not one for each of its parts.
impl Drop for Requests {
    fn drop(self) {
        let Requests {
            primaries,
            selects,
            linktests,
        } = self;
        drop(primaries);
        drop(selects);
        drop(linktests);
    }
}

impl Requests {
    ghost use Rattle.std.specs.Prelude.{◌≡◌, [], ◌∷◌, ◌++◌, List, OnOk, OnErr};
    ghost use Rattle.hsms_frame.specs.declared.header.Header.{Header};
    ghost use Rattle.capture_midstream.specs.Requests.{KnowsOf, is_asked, is_left_out};

    /// None so far.
    pub fn new(alloc: Global) -> Requests
        ensures { KnowsOf [] result }
    {
        Requests {
            primaries: IndexSet::new(alloc),
            selects: IndexSet::new(alloc),
            linktests: IndexSet::new(alloc),
        }
    }

    /// The end sent a further message.
    pub fn note(&mut self, message: Header) -> Result<(), AllocError>
        ensures ok { (said : List Header) → KnowsOf said self.old
            → OnOk result (KnowsOf (said ++ message ∷ []) self.new) }
        ensures err { (said : List Header) → KnowsOf said self.old → OnErr result (KnowsOf said self.new) }
    {
        match kind(message) {
            Kind::Primary => {
                if message.wait() {
                    self.primaries.insert(message.system)?;
                }
            }
            Kind::SelectReq => {
                self.selects.insert(message.system)?;
            }
            Kind::LinktestReq => {
                self.linktests.insert(message.system)?;
            }
            Kind::Reply => {}
            Kind::SelectRsp => {}
            Kind::LinktestRsp => {}
            Kind::Reject => {}
            Kind::Separate => {}
            Kind::OtherSType => {}
            Kind::OtherPType => {}
        }
        Ok(())
    }

    /// Whether the end has asked for this message of the other end.
    pub fn has_asked_for(&self, response: Header) -> bool
        ensures { (said : List Header) → KnowsOf said self.now → result ≡ is_asked response said }
    {
        match kind(response) {
            Kind::Reply => self.primaries.contains(&response.system),
            Kind::SelectRsp => self.selects.contains(&response.system),
            Kind::LinktestRsp => self.linktests.contains(&response.system),
            _ => false,
        }
    }

    /// Whether a message of the other end is left out: it is a response, up to T3 behind the time at which both
    /// directions have begun, and this end hasn't asked for it, so that the request may stand before the capture. What
    /// comes later is late anyway. All times are in milliseconds.
    pub fn leaves_out(&self, message: Header, begun: u64, t3: u32, time: u64) -> bool
        ensures { (said : List Header) → KnowsOf said self.now → result ≡ is_left_out message said begun t3 time }
    {
        is_response(message)
            && !self.has_asked_for(message)
            && time.saturating_sub(begun) <= u64::from(t3)
    }
}

// Whether a message is a response.
fn is_response(message: Header) -> bool
    ensures { result ≡ is_response message }
{
    matches!(
        kind(message),
        Kind::Reply | Kind::SelectRsp | Kind::LinktestRsp
    )
}
