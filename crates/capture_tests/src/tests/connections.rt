//! Literal offsets and ends.

ghost use Rattle.std.specs.Prelude.{◌<◌, ◌^◌};

use super::assert_so;
use capture_tcp::{
    BothEnds, Cell, Connection, ConnectionFault, DeliveryFault, DeliveryQueue, Ending, Event,
    Flags, Losses, Packet, ReassemblyBuffer, ReassemblyFault, Segment, Side, TimedEvent,
    acknowledged_place, nearest_place, numbered_place, only_asks,
};
use std::alloc::{AllocError, Global};
use std::process::Abort;

// Checks the offset with this number that is nearest to an offset.
fn assert_nearest(rt: &impl Abort, place: u64, number: u32, want: Option<u64>)
    requires { place < 2 ^ 63 }
{
    assert_so(rt, nearest_place(place, number) == want, "a place");
}

#[test]
fn numbers_that_begin_again(rt: std::rt::HostRuntime) {
    assert_nearest(&rt, 0, 5, Some(5));
    assert_nearest(&rt, 4294967290, 4, Some(4294967300));
    assert_nearest(&rt, 4294967300, 4294967290, Some(4294967290));
    assert_nearest(&rt, 5, 4294967290, None);
    assert_nearest(&rt, 0, 2147483648, None);
}

// The sequence numbers of a SYN and of a byte, and the byte's offset.
const NUMBERED: &[(u32, u32, Option<u64>)] = &[(1000, 1001, Some(1)), (4294967295, 0, Some(1))];

// An acknowledgment number, if offset 5 is known, and the offset up to which it acknowledges.
const ACKNOWLEDGED: &[(Option<u32>, Option<u64>)] = &[
    (Some(1004), Some(4)),
    (Some(999), None),
    (None, None),
];

#[test]
fn places_by_their_numbers(rt: std::rt::HostRuntime) {
    for (first, number, want) in NUMBERED {
        assert_so(&rt, numbered_place(*first, 0, *number) == *want, "a place");
    }
    for (number, want) in ACKNOWLEDGED {
        assert_so(
            &rt,
            acknowledged_place(1000, 5, *number) == *want,
            "what is acknowledged",
        );
    }
}

const PLAIN: Flags = Flags {
    syn: false,
    fin: false,
    pushed: false,
};

const PUSHED: Flags = Flags {
    syn: false,
    fin: false,
    pushed: true,
};

const OPENS: Flags = Flags {
    syn: true,
    fin: false,
    pushed: false,
};

const CLOSES: Flags = Flags {
    syn: false,
    fin: true,
    pushed: false,
};

// Bytes at an offset, if five are acknowledged, and whether they are a keep-alive.
const ASKING: &[(u64, Flags, &[u8], bool)] = &[
    (4, PLAIN, &[0], true),
    (5, PLAIN, &[0], false),
    (4, PLAIN, &[0, 0], false),
    (4, PUSHED, &[0], false),
    (4, CLOSES, &[0], false),
];

#[test]
fn octets_that_ask(rt: std::rt::HostRuntime) {
    for (place, flags, octets, want) in ASKING {
        assert_so(
            &rt,
            only_asks(5, *place, *flags, octets) == *want,
            "octets that ask",
        );
    }
}

// A packet: its sender, its number, its time, the sequence number of its first byte, its acknowledgment, and its bytes.
type Sent = (Side, u64, u64, u32, Option<u32>, &'static [u8]);

// Creates a segment. Both SYNs have the sequence number 1000. The packet with the number `resets` resets the
// connection.
fn segment_of(sent: &Sent, resets: u64) -> Segment {
    let (from, packet, time, number, acknowledged, _) = *sent;
    Segment {
        from,
        packet,
        time,
        number,
        acknowledged,
        flags: Flags {
            syn: number == 1000,
            fin: false,
            pushed: true,
        },
        reset: packet == resets,
    }
}

const AHEAD: &[Sent] = &[
    (Side::Active, 1, 1, 1000, None, &[]),
    (Side::Passive, 2, 2, 1000, Some(1001), &[]),
    (Side::Active, 3, 3, 1003, Some(1001), &[8, 9]),
    (Side::Active, 4, 4, 1002, Some(1001), &[7]),
    (Side::Passive, 5, 5, 1001, Some(1001), &[]),
    (Side::Active, 6, 6, 1001, Some(1001), &[7]),
    (Side::Active, 7, 7, 500_000_000, Some(1001), &[7]),
];

fn take_turns(turns: &mut DeliveryQueue, emitted: &mut Vec<Packet>) -> Result<(), DeliveryFault> {
    for sent in AHEAD {
        turns.take(segment_of(sent, 0), sent.5, emitted)?;
    }
    Ok(())
}

// Returns true if the delivered packets have these numbers.
fn are_numbered(emitted: &[Packet], requested: &[u64]) -> bool {
    for (packet, number) in emitted.iter().zip(requested) {
        if packet.packet != *number {
            return false;
        }
    }
    emitted.len() == requested.len()
}

#[test]
fn turns_of_packets(rt: std::rt::HostRuntime) -> Result<(), DeliveryFault> {
    let mut turns = DeliveryQueue::new(rt.alloc(), 1000, 1000);
    let mut emitted = Vec::new(rt.alloc());
    take_turns(&mut turns, &mut emitted)?;
    assert_so(
        &rt,
        are_numbered(&emitted, &[1, 2, 5, 6, 4, 3]),
        "whose turn",
    );
    Ok(())
}

const WAITING: &[Sent] = &[
    (Side::Active, 1, 1, 1005, None, &[7; 4]),
    (Side::Active, 2, 2, 1009, None, &[7; 3]),
    (Side::Active, 3, 3, 1014, None, &[7; 6]),
];

const SEVENS: &[u8] = &[7; 20];

// Returns the end after the bytes before `place` arrive, if bytes after them wait.
fn end_after(alloc: Global, place: usize) -> Result<u64, DeliveryFault> {
    let mut turns = DeliveryQueue::new(alloc, 1000, 1000);
    let mut emitted = Vec::new(alloc);
    for sent in WAITING {
        turns.take(segment_of(sent, 0), sent.5, &mut emitted)?;
    }
    let octets = SEVENS.get(..place).unwrap_or(b"");
    let first = (Side::Active, 4, 4, 1000, None, octets);
    turns.take(segment_of(&first, 0), octets, &mut emitted)?;
    Ok(turns.ends().active)
}

#[test]
fn gaps_that_are_filled(rt: std::rt::HostRuntime) -> Result<(), DeliveryFault> {
    for (place, end) in [(3, 4), (6, 12), (12, 13), (13, 20)] {
        assert_so(&rt, end_after(rt.alloc(), place)? == end, "an end");
    }
    Ok(())
}

fn brings(packet: u64, acknowledged: u64) -> Packet {
    Packet {
        packet,
        time: packet,
        from: 5,
        to: 5,
        acknowledged: Some(acknowledged),
        reset: false,
    }
}

const ENDS: BothEnds = BothEnds {
    active: 5,
    passive: 5,
};

// Processes a packet, and checks that this one is lost.
fn assert_lost(
    rt: &impl Abort,
    losses: &mut Losses,
    from: Side,
    packet: Packet,
    want: Option<u64>,
) -> Result<(), AllocError> {
    let lost = losses.take(from, packet, ENDS)?;
    assert_so(rt, lost == want, "which is lost");
    Ok(())
}

fn bring_more(rt: &impl Abort, losses: &mut Losses) -> Result<(), AllocError> {
    for number in 10..4105 {
        assert_lost(rt, losses, Side::Active, brings(number, 5), None)?;
    }
    Ok(())
}

// Loses what packet 9 acknowledges: it is missing, and 4,096 packets follow.
fn lose(rt: &impl Abort, losses: &mut Losses) -> Result<(), AllocError> {
    assert_lost(rt, losses, Side::Passive, brings(8, 5), None)?;
    assert_so(rt, losses.first().is_none(), "nothing is missed");
    assert_lost(rt, losses, Side::Active, brings(9, 6), None)?;
    bring_more(rt, losses)?;
    assert_so(rt, losses.first() == Some(9), "what is missed first");
    assert_lost(rt, losses, Side::Active, brings(4105, 5), Some(9))
}

#[test]
fn loss_of_an_octet(rt: std::rt::HostRuntime) -> Result<(), AllocError> {
    let mut losses = Losses::new(rt.alloc());
    lose(&rt, &mut losses)
}

// A cell to store or pass, or a check. `Cell` checks a cell. `Copy` checks whether a copy from offset 1 on contradicts
// what is buffered, if the given number of bytes are acknowledged. `Front` checks the number of bytes of the message at
// an offset, of what comes before another offset.
enum Look {
    Put(u64, Flags, &'static [u8]),
    Pass(u64),
    Cell(u64, Option<Cell>),
    Copy(u64, &'static [u8], bool),
    Front(u64, u64, Option<u64>),
}

fn check_look(
    rt: &impl Abort,
    held: &mut ReassemblyBuffer,
    look: &Look,
) -> Result<(), ReassemblyFault> {
    let is_so = match look {
        Look::Put(place, flags, octets) => {
            held.put(*place, *flags, octets)?;
            true
        }
        Look::Pass(place) => {
            held.pass(*place);
            true
        }
        Look::Cell(place, want) => held.cell(*place) == *want,
        Look::Copy(acknowledged, octets, want) => {
            held.contradicts(*acknowledged, 1, PUSHED, octets) == *want
        }
        Look::Front(place, upto, want) => held.front(*place, *upto) == *want,
    };
    assert_so(rt, is_so, "a cell, a copy or a front");
    Ok(())
}

fn check_looks(
    rt: &impl Abort,
    held: &mut ReassemblyBuffer,
    looks: &[Look],
) -> Result<(), ReassemblyFault> {
    for look in looks {
        check_look(rt, held, look)?;
    }
    Ok(())
}

// A SYN and the bytes 7, 8 and 9, of which 8 is captured first, and again with another value.
const COPIES: &[Look] = &[
    Look::Put(2, PUSHED, &[8]),
    Look::Put(0, OPENS, &[7, 0, 9]),
    Look::Cell(0, Some(Cell::Syn)),
    Look::Cell(1, Some(Cell::Octet(7))),
    Look::Cell(2, Some(Cell::Octet(8))),
    Look::Cell(3, Some(Cell::Octet(9))),
    Look::Cell(4, None),
    Look::Copy(1, &[7, 0], true),
    Look::Copy(1, &[7, 8, 9, 10], false),
    Look::Copy(3, &[7, 0, 9], false),
    Look::Pass(3),
    Look::Cell(2, None),
    Look::Cell(3, Some(Cell::Octet(9))),
];

fn assert_full(rt: &impl Abort, held: &mut ReassemblyBuffer) {
    let full = held.put(67108867, PUSHED, &[1]);
    assert_so(rt, full == Err(ReassemblyFault::Full), "what isn't held");
}

#[test]
fn first_copies_of_octets(rt: std::rt::HostRuntime) -> Result<(), ReassemblyFault> {
    let mut held = ReassemblyBuffer::new(rt.alloc());
    check_looks(&rt, &mut held, COPIES)?;
    assert_full(&rt, &mut held);
    Ok(())
}

// Bytes after several gaps, in any order, and copies over them and over the gaps.
const RUNS: &[Look] = &[
    Look::Put(10, PUSHED, &[1, 2]),
    Look::Put(20, PUSHED, &[9]),
    Look::Put(14, PUSHED, &[5, 6]),
    Look::Put(12, PUSHED, &[3]),
    Look::Put(9, PUSHED, &[0, 0, 0, 0, 4, 0, 0, 7]),
    Look::Put(9, PUSHED, &[8, 8, 8, 8, 8, 8, 8, 8]),
    Look::Cell(8, None),
    Look::Cell(9, Some(Cell::Octet(0))),
    Look::Cell(10, Some(Cell::Octet(1))),
    Look::Cell(12, Some(Cell::Octet(3))),
    Look::Cell(13, Some(Cell::Octet(4))),
    Look::Cell(15, Some(Cell::Octet(6))),
    Look::Cell(16, Some(Cell::Octet(7))),
    Look::Cell(17, None),
    Look::Cell(20, Some(Cell::Octet(9))),
    Look::Put(60000000, CLOSES, &[1]),
    Look::Pass(15),
    Look::Cell(14, None),
    Look::Cell(15, Some(Cell::Octet(6))),
    Look::Put(17, PUSHED, &[7, 7, 7, 0, 7]),
    Look::Cell(19, Some(Cell::Octet(7))),
    Look::Cell(20, Some(Cell::Octet(9))),
    Look::Cell(21, Some(Cell::Octet(7))),
    Look::Cell(60000001, Some(Cell::Fin)),
    Look::Pass(60000001),
    Look::Cell(60000001, Some(Cell::Fin)),
    Look::Pass(60000002),
    Look::Cell(60000001, None),
];

#[test]
fn bytes_after_gaps(rt: std::rt::HostRuntime) -> Result<(), ReassemblyFault> {
    let mut held = ReassemblyBuffer::new(rt.alloc());
    check_looks(&rt, &mut held, RUNS)
}

// A SYN, and a message with a length of 10, whose last byte is captured later. Then lengths that no message has, 9 and
// 2^26, and the maximum length of one that can be buffered, of which the rest is missing.
const FRONTS: &[Look] = &[
    Look::Put(0, OPENS, &[0, 0, 0, 10, 1, 2, 3, 4, 5, 6, 7, 8, 9]),
    Look::Front(0, 14, Some(1)),
    Look::Pass(1),
    Look::Front(1, 15, None),
    Look::Put(14, PUSHED, &[10]),
    Look::Front(1, 14, None),
    Look::Front(1, 15, Some(14)),
    Look::Front(0, 15, None),
    Look::Pass(15),
    Look::Put(15, PUSHED, &[0, 0, 0, 9, 4, 0, 0, 0, 3, 255, 255, 252]),
    Look::Front(15, 18, None),
    Look::Front(15, 27, Some(4)),
    Look::Pass(19),
    Look::Front(19, 27, Some(4)),
    Look::Pass(23),
    Look::Front(23, 27, None),
];

#[test]
fn messages_at_the_front(rt: std::rt::HostRuntime) -> Result<(), ReassemblyFault> {
    let mut held = ReassemblyBuffer::new(rt.alloc());
    check_looks(&rt, &mut held, FRONTS)
}

// A Select.req and a Select.rsp, a Separate and a Linktest.req, without a text.
const SELECT: [u8; 14] = [0, 0, 0, 10, 255, 255, 0, 0, 0, 1, 0, 0, 0, 1];

const SELECTED: [u8; 14] = [0, 0, 0, 10, 255, 255, 0, 0, 0, 2, 0, 0, 0, 1];

const OTHER: [u8; 14] = [0, 0, 0, 10, 255, 255, 0, 0, 0, 1, 0, 0, 0, 2];

const SEPARATE: [u8; 14] = [0, 0, 0, 10, 255, 255, 0, 0, 0, 9, 0, 0, 0, 2];

const LINKTEST: [u8; 14] = [0, 0, 0, 10, 255, 255, 0, 0, 0, 5, 0, 0, 0, 3];

// Returns a message's SType, 100 if the connection is established, 200 if it is closed.
fn kind_of(event: &Event) -> u8 {
    match event {
        Event::Up => 100,
        Event::Message { octets, .. } => octets.get(9).copied().unwrap_or(0),
        Event::Down => 200,
    }
}

// Packets of a connection, which of them resets it, the events by packet, time and kind, and the ending.
struct Followed {
    packets: &'static [Sent],
    resets: u64,
    requested: &'static [(u64, u64, u8)],
    ending: Ending,
}

// Processes the packets. Both SYNs have the sequence number 1000.
fn follow(
    alloc: Global,
    case: &Followed,
    emitted: &mut Vec<TimedEvent>,
) -> Result<Ending, ConnectionFault> {
    let mut connection = Connection::new(alloc, 1000, 1000);
    for sent in case.packets {
        connection = connection.take(alloc, segment_of(sent, case.resets), sent.5, emitted)?;
    }
    connection.end(alloc, emitted)
}

fn is_like(emitted: &TimedEvent, want: &(u64, u64, u8)) -> bool {
    let (packet, time, kind) = *want;
    emitted.packet == packet && emitted.time == time && kind_of(&emitted.event) == kind
}

fn are_emitted(emitted: &[TimedEvent], requested: &[(u64, u64, u8)]) -> bool {
    for (happening, want) in emitted.iter().zip(requested) {
        if !is_like(happening, want) {
            return false;
        }
    }
    emitted.len() == requested.len()
}

fn judge(rt: &impl Abort, alloc: Global, case: &Followed) -> Result<(), ConnectionFault> {
    let mut emitted = Vec::new(alloc);
    let ending = follow(alloc, case, &mut emitted)?;
    assert_so(rt, ending == case.ending, "how it ends");
    assert_so(rt, are_emitted(&emitted, case.requested), "what happens");
    Ok(())
}

// The SYN and ACK is captured after the Select.req, whose time is later than that of the packets after it. What crosses
// a Separate is skipped. A reset ends the connection.
const WHOLE: Followed = Followed {
    packets: &[
        (Side::Active, 1, 1, 1000, None, &[]),
        (Side::Active, 2, 2, 1001, Some(1001), &[]),
        (Side::Active, 3, 7, 1001, Some(1001), &SELECT),
        (Side::Passive, 4, 4, 1000, Some(1001), &[]),
        (Side::Passive, 5, 5, 1001, Some(1015), &SELECTED),
        (Side::Active, 6, 6, 1015, Some(1015), &SEPARATE),
        (Side::Passive, 7, 7, 1015, Some(1015), &LINKTEST),
        (Side::Active, 8, 8, 1029, Some(1029), &[]),
        (Side::Passive, 9, 9, 1029, Some(1029), &[]),
    ],
    resets: 9,
    requested: &[(2, 2, 100), (3, 7, 1), (5, 7, 2), (6, 7, 9), (9, 9, 200)],
    ending: Ending::Closed,
};

// The reply that packet 5 acknowledges was not captured.
const LOST: Followed = Followed {
    packets: &[
        (Side::Active, 1, 1, 1000, None, &[]),
        (Side::Passive, 2, 2, 1000, Some(1001), &[]),
        (Side::Active, 3, 3, 1001, Some(1001), &[]),
        (Side::Active, 4, 4, 1001, Some(1001), &SELECT),
        (Side::Active, 5, 5, 1015, Some(1015), &[]),
        (Side::Active, 6, 6, 1015, Some(1015), &SEPARATE),
    ],
    resets: 0,
    requested: &[(3, 3, 100), (4, 4, 1)],
    ending: Ending::Lost(5),
};

// Packet 5 carries other bytes than packet 4.
const DIFFERING: Followed = Followed {
    packets: &[
        (Side::Active, 1, 1, 1000, None, &[]),
        (Side::Passive, 2, 2, 1000, Some(1001), &[]),
        (Side::Active, 3, 3, 1001, Some(1001), &[]),
        (Side::Active, 4, 4, 1001, Some(1001), &SELECT),
        (Side::Active, 5, 5, 1001, Some(1001), &OTHER),
        (Side::Passive, 6, 6, 1001, Some(1015), &SELECTED),
    ],
    resets: 0,
    requested: &[(3, 3, 100), (4, 4, 1)],
    ending: Ending::Differs(5),
};

// A complete connection, a lost reply, and a conflicting retransmission.
#[test]
fn connections_that_end(rt: std::rt::HostRuntime) -> Result<(), ConnectionFault> {
    check_each(&rt, rt.alloc(), &[WHOLE, LOST, DIFFERING])
}

fn check_each(rt: &impl Abort, alloc: Global, cases: &[Followed]) -> Result<(), ConnectionFault> {
    for case in cases {
        judge(rt, alloc, case)?;
    }
    Ok(())
}
