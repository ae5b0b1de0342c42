//! The state of a connection during a capture, and the events that are emitted when a packet arrives.

ghost use Rattle.std.specs.Prelude.{◌≡◌, ◌++◌, IfErr, IfOk, OnOk, map};
ghost use Rattle.capture_tcp.specs.PacketArrival.{breaks_sure};
ghost use Rattle.capture_tcp.specs.InnerPacketArrival.{Arrives, Brings, BringsTo, ContinuesWith, PassesBoth, PassesTo, Reacts, EmitsIfSettled, EmitsSettled, due_as, or_differs};
ghost use Rattle.capture_tcp.specs.declared.reassembly.ReassemblyFault.TheVariants.{Memory};
ghost use Rattle.capture_tcp.specs.Message.{cells_of};
ghost use Rattle.capture_tcp.specs.InnerLimits.{FullIf, IsFull, IsFullAt, IsNear, IsNearAt};
ghost use Rattle.capture_tcp.specs.InnerTimestamps.{QueuesInTime, ReactsInTime, EmitsInTime};

use crate::emitter::{Emitter, emit_before};
use crate::ending::{Ending, finish, least};
use crate::events::TimedEvent;
use crate::keep_alive::Flags;
use crate::losses::{BothEnds, Losses};
use crate::packet::{Packet, Side};
use crate::reassembly::{ReassemblyBuffer, ReassemblyFault};
use crate::streams::{Due, Stream, Streams};
use std::alloc::{AllocError, Global};
use std::collections::VecDeque;

/// The state of a connection, except for the delivery of its packets.
#[derive(Drop)]
pub(crate) struct Reading {
    pub losses: Losses,
    pub emitter: Emitter,
    pub due: VecDeque<Due>,
    pub differs: Option<u64>,
}

/// An arriving packet: the end that sent it, its flags, its offset, and what of that end was acknowledged before it.
/// After it: the ends of both directions, and what is acknowledged of them.
#[derive(Clone, Copy)]
pub(crate) struct Arrival {
    pub from: Side,
    pub flags: Flags,
    pub packet: Packet,
    pub acknowledged: u64,
    pub ends: BothEnds,
    pub received: BothEnds,
}

// Buffers what a packet carries, and returns whether it conflicts with what was buffered.
fn bring(
    held: &mut ReassemblyBuffer,
    acknowledged: u64,
    packet: Packet,
    flags: Flags,
    octets: &[u8],
) -> Result<bool, ReassemblyFault>
    ensures held { IfOk result (λ differs. Brings held.old acknowledged packet (cells_of flags.syn octets.now flags.fin) held.new differs) }
    ensures full { IfErr result (λ f. FullIf f (IsFull held.old packet (cells_of flags.syn octets.now flags.fin))) }
    ensures near { OnOk result (IsNear held.old packet (cells_of flags.syn octets.now flags.fin)) }
{
    if packet.from == packet.to {
        return Ok(false);
    }
    let differs = held.contradicts(acknowledged, packet.from, flags, octets);
    held.put(packet.from, flags, octets)?;
    Ok(differs)
}

// Buffers what a packet carries in its direction, and returns whether it conflicts with what was buffered.
fn bring_to(streams: &mut Streams, arrival: Arrival, octets: &[u8]) -> Result<bool, ReassemblyFault>
    ensures held { IfOk result (λ differs. BringsTo streams.old arrival octets.now streams.new differs) }
    ensures full { IfErr result (λ f. FullIf f (IsFullAt streams.old arrival octets.now)) }
    ensures near { OnOk result (IsNearAt streams.old arrival octets.now) }
{
    let Arrival {
        from,
        flags,
        packet,
        acknowledged,
        ..
    } = arrival;
    match from {
        Side::Active => bring(
            &mut streams.active.held,
            acknowledged,
            packet,
            flags,
            octets,
        ),
        Side::Passive => bring(
            &mut streams.passive.held,
            acknowledged,
            packet,
            flags,
            octets,
        ),
    }
}

// Returns the first conflicting packet.
fn first_different(known: Option<u64>, differs: bool, packet: u64) -> Option<u64>
    ensures { result ≡ or_differs known differs packet }
{
    known.or(differs.then_some(packet))
}

// Appends the packets that are delivered at a packet, with the packet's time.
#[tactic(auto, using(crate::proofs::Arriving::queue_next, crate::proofs::Arriving::queue_all))]
fn queue(
    due: &mut VecDeque<Due>,
    at: Packet,
    from: Side,
    freed: &[Packet],
) -> Result<(), AllocError>
    ensures { OnOk result (due.new.items ≡ due.old.items ++ map (due_as at from) freed.now) }
{
    let mut rest = freed;
    while let Some((packet, more)) = rest.split_first() {
        due.push_back(Due {
            at: at.packet,
            time: at.time,
            from,
            packet: *packet,
        })?;
        rest = more;
    }
    Ok(())
}

// Processes what a packet carries, and the packets that are delivered at it.
fn arrive(
    reading: &mut Reading,
    arrival: Arrival,
    octets: &[u8],
    freed: &[Packet],
) -> Result<(), ReassemblyFault>
    ensures known { OnOk result (Arrives arrival octets.now freed.now reading.old reading.new) }
    ensures times { OnOk result (QueuesInTime arrival.packet reading.old.due.items reading.new.due.items) }
    ensures full { IfErr result (λ f. FullIf f (IsFullAt reading.old.emitter.streams arrival octets.now)) }
    ensures near { OnOk result (IsNearAt reading.old.emitter.streams arrival octets.now) }
{
    let packet = arrival.packet;
    let differs = bring_to(&mut reading.emitter.streams, arrival, octets)?;
    reading.differs = first_different(reading.differs, differs, packet.packet);
    queue(&mut reading.due, packet, arrival.from, freed)?;
    Ok(())
}

// Drops what was emitted and acknowledged.
fn pass(stream: &mut Stream, acknowledged: u64)
    ensures { PassesTo stream.old acknowledged stream.new }
{
    let place = stream.place;
    stream.held.pass(acknowledged.min(place));
}

// Drops what was emitted and acknowledged in both directions.
fn pass_both(streams: &mut Streams, received: BothEnds)
    ensures { PassesBoth streams.old received streams.new }
{
    pass(&mut streams.active, received.active);
    pass(&mut streams.passive, received.passive);
}

// Emits what is final, if none of the packets so far is certainly lost.
fn emit_settled(
    alloc: Global,
    reading: &mut Reading,
    received: BothEnds,
    emitted: &mut Vec<TimedEvent>,
) -> Result<Option<Ending>, AllocError>
    ensures emitted { IfOk result (λ r. EmitsIfSettled received reading.old emitted.old.items reading.new emitted.new.items r) }
    ensures times { OnOk result (EmitsInTime reading.old.due.items emitted.old.items reading.new.due.items emitted.new.items) }
{
    let limit = least(reading.losses.first(), reading.differs);
    if emit_before(
        alloc,
        &mut reading.emitter,
        &mut reading.due,
        limit,
        emitted,
    )? {
        return Ok(Some(Ending::Closed));
    }
    pass_both(&mut reading.emitter.streams, received);
    Ok(None)
}

// Returns true if a retransmission conflicts, and no packet before it has missing data.
fn breaks_surely(first: Option<u64>, differs: Option<u64>) -> bool
    ensures { result ≡ breaks_sure first differs }
{
    match differs {
        Some(packet) => match first {
            Some(lacking) => packet <= lacking,
            None => true,
        },
        None => false,
    }
}

// Emits what is final, and ends if a retransmission conflicts and nothing before it is missing.
fn settle(
    alloc: Global,
    reading: &mut Reading,
    received: BothEnds,
    emitted: &mut Vec<TimedEvent>,
) -> Result<Option<Ending>, AllocError>
    ensures emitted { IfOk result (λ r. EmitsSettled received reading.old emitted.old.items reading.new emitted.new.items r) }
    ensures times { OnOk result (EmitsInTime reading.old.due.items emitted.old.items reading.new.due.items emitted.new.items) }
{
    let first = reading.losses.first();
    let differs = reading.differs;
    if breaks_surely(first, differs) {
        let ending = finish(
            alloc,
            &mut reading.emitter,
            &mut reading.due,
            first,
            differs,
            emitted,
        )?;
        return Ok(Some(ending));
    }
    emit_settled(alloc, reading, received, emitted)
}

// Emits what is final after a packet, at which a loss may have become known.
fn go_on(
    alloc: Global,
    reading: &mut Reading,
    lost: Option<u64>,
    received: BothEnds,
    emitted: &mut Vec<TimedEvent>,
) -> Result<Option<Ending>, AllocError>
    ensures emitted { IfOk result (λ r. ContinuesWith lost received reading.old emitted.old.items reading.new emitted.new.items r) }
    ensures times { OnOk result (EmitsInTime reading.old.due.items emitted.old.items reading.new.due.items emitted.new.items) }
{
    let Some(packet) = lost else {
        return settle(alloc, reading, received, emitted);
    };
    let ending = finish(
        alloc,
        &mut reading.emitter,
        &mut reading.due,
        Some(packet),
        reading.differs,
        emitted,
    )?;
    Ok(Some(ending))
}

/// Processes an arriving packet, with its payload and the packets that are delivered at it, and emits what is final.
/// Returns the ending, once it is final.
pub(crate) fn react(
    alloc: Global,
    reading: &mut Reading,
    arrival: Arrival,
    octets: &[u8],
    freed: &[Packet],
    emitted: &mut Vec<TimedEvent>,
) -> Result<Option<Ending>, ReassemblyFault>
    ensures emitted { IfOk result (λ r. Reacts arrival octets.now freed.now reading.old emitted.old.items reading.new emitted.new.items r) }
    ensures times { OnOk result (ReactsInTime arrival.packet reading.old emitted.old.items reading.new emitted.new.items) }
    ensures kept { IfErr result (λ f. (f ≡ Memory → ⊥) → emitted.new.items ≡ emitted.old.items) }
    ensures full { IfErr result (λ f. FullIf f (IsFullAt reading.old.emitter.streams arrival octets.now)) }
    ensures near { OnOk result (IsNearAt reading.old.emitter.streams arrival octets.now) }
{
    arrive(reading, arrival, octets, freed)?;
    let lost = reading
        .losses
        .take(arrival.from, arrival.packet, arrival.ends)?;
    Ok(go_on(alloc, reading, lost, arrival.received, emitted)?)
}
