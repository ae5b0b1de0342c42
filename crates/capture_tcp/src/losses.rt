//! Packets with missing data: bytes that they acknowledge, or that come before theirs, and that are not captured so
//! far.

ghost use Rattle.std.specs.Prelude.{◌≡◌, ◌+◌, ◌++◌, ◌∷◌, [], false, nat_lt, IfSome, IfNone, OnOk, OnErr};
ghost use Rattle.std.specs.VecDeque.{deque_len};
ghost use Rattle.capture_tcp.specs.Losses.{needs_of, other_end, past_of, first_of};
ghost use Rattle.capture_tcp.specs.InnerLosses.{is_incomplete, unsettled, IsUnsettled};

use crate::packet::{Packet, Side};
use std::alloc::{AllocError, Global};
use std::collections::VecDeque;
use std::marker::Model;

// The number of packets that may follow a packet with missing data.
const WINDOW: usize = 4096;

/// The ends of the bytes without a gap, of both directions.
#[derive(Clone, Copy, Debug, PartialEq, Eq)]
pub struct BothEnds {
    pub active: u64,
    pub passive: u64,
}

/// What a packet needs: the bytes before its offset, and in the other direction those before the offset that it
/// acknowledges.
#[derive(Clone, Copy, Debug)]
pub struct Need {
    pub packet: u64,
    pub from: Side,
    pub place: u64,
    pub acknowledged: u64,
}

/// Finds the first loss of a connection: a packet with missing data that none of the next 4,096 packets carries.
/// Contracts see what the packets need, from the first with missing data on.
#[derive(Drop)]
pub struct Losses {
    needs: VecDeque<Need>,
}

impl Model for Losses {
    ghost use Rattle.std.specs.Prelude.{List};
    ghost use Rattle.capture_tcp.specs.declared.losses.Need.{Need};

    ghost Value = { List Need };

    ghost view = { λ l. l.needs.items };
}

impl Losses {
    ghost use Rattle.std.specs.Prelude.{◌≡◌, ℕ, [], Ok, Some, None, OnErr};
    ghost use Rattle.capture_tcp.specs.Losses.{FindsLoss, ReturnsLoss, Watches, WatchesOn, first_of, shown_of};

    /// Creates a value without packets. Does not allocate.
    #[tactic(auto, using(crate::proofs::WatchedBytes::watches_none))]
    pub fn new(alloc: Global) -> Losses
        ensures { Watches result [] }
    {
        Losses {
            needs: VecDeque::new(alloc),
        }
    }

    /// Processes a packet that one end sent, and the ends of both directions after it. Returns the packet that is the
    /// loss, as soon as that is final. Do not call it after a loss. A failed allocation changes nothing.
    #[tactic(auto, using(crate::proofs::WatchedBytes::watches_on, crate::proofs::WatchedBytes::took_none))]
    pub fn take(
        &mut self,
        from: Side,
        packet: Packet,
        ends: BothEnds,
    ) -> Result<Option<u64>, AllocError>
        ensures none { result ≡ Ok None → WatchesOn self.old from packet ends self.new }
        ensures lost { (k : ℕ) → result ≡ Ok (Some k) → FindsLoss self.old from packet ends k self.new }
        ensures err { OnErr result (self.new ≡ self.old) }
    {
        watch(&mut self.needs, from, packet, ends)?;
        if self.needs.len() <= WINDOW {
            return Ok(None);
        }
        Ok(self.first())
    }

    /// Returns the packet that shows the loss, if the first packet with missing data is the loss. It is the first
    /// packet that acknowledges missing bytes, by these ends of both directions, or the loss itself if there is none.
    pub fn shown(&self, ends: BothEnds) -> Option<u64>
        ensures { result ≡ shown_of ends self.now }
    {
        past_packet(&self.needs, ends).or(first_packet(&self.needs))
    }

    /// Returns the packet that is the loss, if no packet follows.
    #[tactic(auto, using(crate::proofs::WatchedBytes::returns_first))]
    pub fn first(&self) -> Option<u64>
        ensures first { result ≡ first_of self.now }
        ensures loss { ReturnsLoss self.now result }
    {
        first_packet(&self.needs)
    }
}

// Returns the packet of the first need.
#[tactic(auto, using(crate::proofs::WatchedBytes::first_none, crate::proofs::WatchedBytes::first_some))]
fn first_packet(needs: &VecDeque<Need>) -> Option<u64>
    ensures { result ≡ first_of needs.now.items }
{
    Some(needs.front()?.packet)
}

// Returns the packet of the first need that acknowledges missing data.
#[tactic(auto, using(crate::proofs::WatchedBytes::past_here, crate::proofs::WatchedBytes::past_after, crate::proofs::WatchedBytes::past_none))]
fn past_packet(needs: &VecDeque<Need>, ends: BothEnds) -> Option<u64>
    ensures { result ≡ past_of ends needs.now.items }
{
    for need in needs {
        if is_past(ends, *need) {
            return Some(need.packet);
        }
    }
    None
}

// Returns true if something that a packet acknowledges is missing.
fn is_past(ends: BothEnds, need: Need) -> bool
    ensures { result ≡ nat_lt (other_end ends need.from) need.acknowledged }
{
    match need.from {
        Side::Active => ends.passive < need.acknowledged,
        Side::Passive => ends.active < need.acknowledged,
    }
}

// Appends what a packet needs, and removes from the front what is no longer missing.
fn watch(
    needs: &mut VecDeque<Need>,
    from: Side,
    packet: Packet,
    ends: BothEnds,
) -> Result<(), AllocError>
    ensures ok { OnOk result (needs.new.items ≡ unsettled ends (needs.old.items ++ needs_of from packet ∷ [])) }
    ensures err { OnErr result (needs.new.items ≡ needs.old.items) }
{
    needs.push_back(need_of(from, packet))?;
    settle(needs, ends);
    Ok(())
}

// Returns what a packet needs.
fn need_of(from: Side, packet: Packet) -> Need
    ensures { result ≡ needs_of from packet }
{
    Need {
        packet: packet.packet,
        from,
        place: packet.from,
        acknowledged: packet.acknowledged.unwrap_or(0),
    }
}

// Removes from the front what is no longer missing.
#[tactic(auto, using(crate::proofs::WatchedBytes::settles_one, crate::proofs::WatchedBytes::settles_all))]
fn settle(needs: &mut VecDeque<Need>, ends: BothEnds)
    ensures { needs.new.items ≡ unsettled ends needs.old.items }
{
    while let Some(_) = take_settled(needs, ends) {}
}

// Removes the first need, if nothing of it is missing.
fn take_settled(needs: &mut VecDeque<Need>, ends: BothEnds) -> Option<Need>
    ensures some { IfSome result (λ need. (needs.old.items ≡ need ∷ needs.new.items) × (is_incomplete ends need ≡ false)) }
    ensures none { IfNone result ((needs.new.items ≡ needs.old.items) × IsUnsettled ends needs.old.items) }
    ensures len { IfSome result (λ need. deque_len needs.old ≡ deque_len needs.new + 1) }
{
    if has_missing(ends, *needs.front()?) {
        return None;
    }
    needs.pop_front()
}

// Returns true if something is missing.
fn has_missing(ends: BothEnds, need: Need) -> bool
    ensures { result ≡ is_incomplete ends need }
{
    let own = match need.from {
        Side::Active => ends.active,
        Side::Passive => ends.passive,
    };
    is_past(ends, need) || own < need.place
}
