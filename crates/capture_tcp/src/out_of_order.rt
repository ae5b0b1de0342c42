//! Out-of-order packets, in the order of their offsets.

ghost use Rattle.std.specs.Prelude.{◌≡◌, ◌≤◌, ◌+◌, ◌++◌, ◌∷◌, IfSome, IfNone, IfOk, IsOk, OnOk, OnErr, vec_len, vec_capacity};
ghost use Rattle.std.specs.List.{insert};
ghost use Rattle.std.specs.VecDeque.{deque_len};
ghost use Rattle.capture_tcp.specs.InnerOutOfOrder.{put_after, IsStopped, Drained, drained, acked};

use crate::packet::Packet;
use std::alloc::{AllocError, Global};
use std::collections::VecDeque;

/// Inserts a packet after those with its offset. A failed allocation changes nothing.
pub(crate) fn put(queue: &mut VecDeque<Packet>, packet: Packet) -> Result<(), AllocError>
    ensures ok { OnOk result (queue.new.items ≡ put_after packet queue.old.items) }
    ensures len { OnOk result (deque_len queue.new ≡ deque_len queue.old + 1) }
    ensures err { OnErr result (queue.new.items ≡ queue.old.items) }
{
    let index = place_of(queue, packet);
    queue.insert(index, packet)?;
    Ok(())
}

// Returns the index of a packet in the queue.
#[tactic(auto, using(crate::proofs::AfterOffsets::one_more, crate::proofs::AfterOffsets::stops_at, crate::proofs::AfterOffsets::comes_last))]
fn place_of(queue: &VecDeque<Packet>, packet: Packet) -> usize
    ensures within { result ≤ deque_len queue.now }
    ensures place { insert queue.now.items result packet ≡ put_after packet queue.now.items }
{
    let mut index = 0;
    while let Some(other) = queue.get(index) {
        if packet.from < other.from {
            return index;
        }
        index += 1;
    }
    index
}

// Removes the first packet, if the end has reached it.
fn take_reached(queue: &mut VecDeque<Packet>, end: u64) -> Option<Packet>
    ensures some { IfSome result (λ packet. (queue.old.items ≡ packet ∷ queue.new.items) × (packet.from ≤ end)) }
    ensures none { IfNone result ((queue.new.items ≡ queue.old.items) × IsStopped end queue.old.items) }
    ensures len { IfSome result (λ packet. deque_len queue.old ≡ deque_len queue.new + 1) }
{
    if queue.front()?.from > end {
        return None;
    }
    queue.pop_front()
}

// Moves the packets from the front that the end reaches as it advances to `emitted`. Returns the new end and the
// greatest offset that these packets acknowledge.
#[tactic(auto, using(crate::proofs::Draining::keeps, crate::proofs::Draining::begins, crate::proofs::Draining::ends))]
pub(crate) fn free(
    queue: &mut VecDeque<Packet>,
    end: u64,
    acknowledged: u64,
    emitted: &mut Vec<Packet>,
) -> Result<(u64, u64), AllocError>
    requires room { vec_len emitted.old + deque_len queue.old ≤ vec_capacity emitted.old }
    ensures ok { IsOk result }
    ensures end { IfOk result (λ r. r.0 ≡ (drained end queue.old.items).end) }
    ensures acknowledged { IfOk result (λ r. r.1 ≡ acked acknowledged (drained end queue.old.items).emitted) }
    ensures left { queue.new.items ≡ (drained end queue.old.items).left }
    ensures emitted { emitted.new.items ≡ emitted.old.items ++ (drained end queue.old.items).emitted }
{
    let mut end = end;
    let mut acknowledged = acknowledged;
    while let Some(packet) = take_reached(queue, end) {
        end = end.max(packet.to);
        acknowledged = acknowledged.max(packet.acknowledged.unwrap_or(0));
        emitted.push(packet)?;
    }
    Ok((end, acknowledged))
}
