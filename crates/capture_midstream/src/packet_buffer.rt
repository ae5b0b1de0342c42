//! The packets of a session that was running before its capture, until both directions have begun.

use crate::buffered_packet::{Begun, BufferedPacket};
use crate::session_filter::Session;
use crate::sync_search::begun_of;
use capture_tcp::{Segment, Side};
use std::alloc::{AllocError, Global};
use std::marker::Model;

// So many packets are kept at most.
const MOST_PACKETS: usize = 4096;

// So many of their octets at most, beside those of the last one.
const MOST_OCTETS: u64 = 1 << 26;

/// Where both directions begin.
#[derive(Clone, Copy, Debug, PartialEq, Eq)]
pub struct Beginnings {
    pub active: Begun,
    pub passive: Begun,
}

/// The packets of a session, in the order of capture.
#[derive(Drop)]
pub struct Gathering {
    packets: Vec<BufferedPacket>,
    // How many octets they bring, or the greatest number where they are more.
    octets: u64,
}

impl Model for Gathering {
    ghost use Rattle.std.specs.Prelude.{◌≡◌, ◌^◌, ◌-◌, List, min};
    ghost use Rattle.capture_midstream.specs.declared.buffered_packet.BufferedPacket.{BufferedPacket};
    ghost use Rattle.capture_midstream.specs.PacketBuffer.{octets_brought};

    ghost Value = { List BufferedPacket };

    ghost view = { λ g. g.packets.items };

    ghost invariant = { λ g. g.octets ≡ min (octets_brought g.packets.items) (2 ^ 64 - 1) };
}

impl Gathering {
    ghost use Rattle.std.specs.Int.{IsPowerOfTwo};
    ghost use Rattle.std.specs.Prelude.{◌≡◌, ◌≤◌, ◌↔◌, [], true, false, None, IfOk, IfSome, IsTrue, OnOk, OnErr, length};
    ghost use Rattle.capture_midstream.specs.PacketBuffer.{AreBeginnings, AreSilent, AreSure, AreUnsure, BuffersPackets, IsDue, IsFull};

    /// No packet.
    pub fn new(alloc: Global) -> Gathering
        ensures { result ≡ [] }
    {
        Gathering {
            packets: Vec::new(alloc),
            octets: 0,
        }
    }

    /// One packet more.
    pub fn take(&mut self, alloc: Global, segment: Segment, octets: &[u8]) -> Result<(), AllocError>
        ensures ok { OnOk result (BuffersPackets segment octets.now self.old self.new) }
        ensures err { OnErr result (self.new ≡ self.old) }
    {
        let octets = Vec::from_slice(alloc, octets)?;
        let count = octets.len() as u64;
        self.packets.push(BufferedPacket { segment, octets })?;
        self.octets = self.octets.saturating_add(count);
        Ok(())
    }

    /// Whether no more are kept: they are 4,096, or have 2^26 octets.
    pub fn is_full(&self) -> bool
        ensures { IsTrue result ↔ IsFull self.now }
    {
        self.packets.len() >= MOST_PACKETS || self.octets >= MOST_OCTETS
    }

    /// Whether they are looked at: they are as many as a power of two, or no more are kept.
    #[tactic(auto, using(crate::proofs::Keeping::due_by_power, crate::proofs::Keeping::due_by_full))]
    pub fn is_due(&self) -> bool
        ensures { IsTrue result ↔ IsDue self.now }
    {
        self.has_due_count() || self.is_full()
    }

    // Whether they are as many as a power of two.
    #[tactic(auto, using(crate::proofs::Keeping::power_by))]
    fn has_due_count(&self) -> bool
        ensures { IsTrue result ↔ IsPowerOfTwo (length self.now) }
    {
        self.packets.len().is_power_of_two()
    }

    /// Whether none of them brings an octet.
    pub fn is_silent(&self) -> bool
        ensures { IsTrue result ↔ AreSilent self.now }
    {
        self.octets == 0
    }

    /// The packets.
    pub fn packets(&self) -> &[BufferedPacket]
        ensures { result.now ≡ self.now }
    {
        self.packets.as_slice()
    }

    /// Where both directions begin: once both surely do, or where no packet follows.
    ///
    /// # Errors
    ///
    /// Where memory is refused.
    pub fn beginnings(
        &self,
        alloc: Global,
        session: Session,
        is_last: bool,
    ) -> Result<Option<Beginnings>, AllocError>
        requires { session.depth ≤ 100 }
        ensures begin { IfOk result (λ found. IfSome found (AreBeginnings session self.now)) }
        ensures sure { IfOk result (λ found. is_last ≡ false → IfSome found AreSure) }
        ensures none { IfOk result (λ found. found ≡ None → (is_last ≡ false) × AreUnsure session self.now) }
    {
        let active = begun_of(alloc, session, &self.packets, Side::Active)?;
        let passive = begun_of(alloc, session, &self.packets, Side::Passive)?;
        if is_last || active.is_sure && passive.is_sure {
            return Ok(Some(Beginnings { active, passive }));
        }
        Ok(None)
    }
}
