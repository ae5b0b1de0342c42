//! Messages that an endpoint refuses to send, replies past a limit, other message handlers, and due times.

use super::{
    Abort, AllocError, Answer, Desk, End, EndFault, Entry, EquipmentDesk, Event, Global, HostDesk,
    Input, Message, Role, Settings, Side, Stop, assert_fault, assert_octets, assert_so, end_of,
    equipment, judge, lines_of, settings, submit, submit_ok,
};
use hsms_frame::encode_frame;
use secs_item::Item;

/// Returns equipment that was selected at 10, with MAX 256 and first system bytes 1.
fn selected(alloc: Global) -> Result<End<EquipmentDesk>, Stop> {
    let given = settings(Role::Equipment, Side::Passive, 256).ok_or(Stop::Line)?;
    let mut end = end_of(alloc, given, equipment(alloc)?, 1);
    submit_ok(alloc, &mut end, "start 0")?;
    submit_ok(alloc, &mut end, "tick 10")?;
    submit_ok(alloc, &mut end, "comes ffff0000000100000001")?;
    Ok(end)
}

/// Returns the number of bytes in header and text of the one frame that was sent, and its system bytes.
fn sent(entries: &[Entry]) -> Option<(usize, u32)> {
    match entries {
        [
            Entry {
                event: Event::Sent(frame),
                ..
            },
        ] => Some((frame.text.len().saturating_add(10), frame.header.system)),
        _ => None,
    }
}

/// Returns the result of sending S1F1 with an item.
fn send_item(
    wait: bool,
    item: Option<Item>,
    end: &mut End<EquipmentDesk>,
) -> Result<Option<(usize, u32)>, EndFault> {
    let input = Input::Send(Message::new(1, 1, wait, item));
    let entries = submit(end, &input)?;
    Ok(sent(&entries))
}

/// Returns nested lists, the innermost one empty.
fn nested(alloc: Global, count: usize) -> Result<Item, AllocError> {
    let mut item = Item::List(Vec::new(alloc));
    for _ in 1..count {
        item = Item::List(vec![in alloc; item]?);
    }
    Ok(item)
}

fn zeros(alloc: Global, count: usize) -> Result<Item, AllocError> {
    Ok(Item::Binary(vec![in alloc; 0u8; count]?))
}

/// Returns the error of a call. A failed allocation is passed on.
fn fault_of(answer: Result<Option<(usize, u32)>, EndFault>) -> Result<Option<EndFault>, EndFault> {
    match answer {
        Ok(_) => Ok(None),
        Err(EndFault::Memory) => Err(EndFault::Memory),
        Err(fault) => Ok(Some(fault)),
    }
}

/// Checks that an item is rejected with this error.
fn assert_refused(
    rt: &impl Abort,
    end: &mut End<EquipmentDesk>,
    item: Item,
    want: EndFault,
) -> Result<(), Stop> {
    let answer = send_item(false, Some(item), end);
    assert_fault(rt, fault_of(answer)?, Some(want), "refused");
    Ok(())
}

/// Checks that a message with an item is sent in this number of bytes, with these system bytes.
fn assert_sent(
    rt: &impl Abort,
    end: &mut End<EquipmentDesk>,
    wait: bool,
    item: Option<Item>,
    want: (usize, u32),
) -> Result<(), Stop> {
    let answer = send_item(wait, item, end)?;
    assert_so(rt, answer == Some(want), "what is sent");
    Ok(())
}

/// Checks a message with this item that awaits no reply.
fn assert_item_sent(
    rt: &impl Abort,
    end: &mut End<EquipmentDesk>,
    item: Item,
    want: (usize, u32),
) -> Result<(), Stop> {
    assert_sent(rt, end, false, Some(item), want)
}

/// Checks that no transaction is free for another primary that awaits a reply, nor for a Linktest.req.
fn assert_full(rt: &impl Abort, end: &mut End<EquipmentDesk>) {
    let full = send_item(true, None, end);
    assert_fault(rt, full.err(), Some(EndFault::Full), "a primary");
    let full = submit(end, &Input::Linktest);
    assert_fault(rt, full.err(), Some(EndFault::Full), "a linktest");
}

/// Checks that the longest item and the deepest one are sent. An item that is one longer or one deeper is rejected.
fn check_maximum(rt: &impl Abort, alloc: Global, end: &mut End<EquipmentDesk>) -> Result<(), Stop> {
    assert_refused(rt, end, zeros(alloc, 245)?, EndFault::TooLong)?;
    assert_refused(rt, end, nested(alloc, 33)?, EndFault::TooDeep)?;
    assert_item_sent(rt, end, zeros(alloc, 244)?, (256, 1))?;
    assert_item_sent(rt, end, nested(alloc, 32)?, (74, 2))
}

#[test]
fn the_greatest_items(rt: HostRuntime) -> Result<(), Stop> {
    let mut end = selected(rt.alloc())?;
    check_maximum(&rt, rt.alloc(), &mut end)
}

/// Returns the bytes of a message with an item, as an endpoint sends it.
fn octets_sent(alloc: Global, item: Item) -> Result<Vec<u8>, Stop> {
    let mut end = selected(alloc)?;
    let input = Input::Send(Message::new(1, 1, false, Some(item)));
    let entries = submit(&mut end, &input)?;
    match entries.as_slice() {
        [
            Entry {
                event: Event::Sent(frame),
                ..
            },
        ] => Ok(encode_frame(alloc, frame)?),
        _ => Err(Stop::Line),
    }
}

/// Checks that the one entry is that these bytes were accepted.
fn check_taken(
    rt: &impl Abort,
    alloc: Global,
    entries: &[Entry],
    octets: &[u8],
) -> Result<(), Stop> {
    match entries {
        [
            Entry {
                event: Event::Taken(frame),
                ..
            },
        ] => {
            let taken = encode_frame(alloc, frame)?;
            assert_octets(rt, &taken, octets, "a message in two pieces");
            Ok(())
        }
        _ => Err(Stop::Line),
    }
}

/// Checks that the first chunk gives no entries.
fn submit_first(rt: &impl Abort, end: &mut End<EquipmentDesk>, first: &[u8]) -> Result<(), Stop> {
    let entries = end.bytes(first)?;
    assert_so(rt, entries.is_empty(), "a first piece");
    Ok(())
}

/// Checks that an endpoint accepts a message with an item from any two chunks.
fn check_chunks(rt: &impl Abort, alloc: Global, item: Item) -> Result<(), Stop> {
    let octets = octets_sent(alloc, item)?;
    let mut end = selected(alloc)?;
    for cut in 0..octets.len() {
        let (first, last) = octets.split_at(cut);
        submit_first(rt, &mut end, first)?;
        let entries = end.bytes(last)?;
        check_taken(rt, alloc, &entries, &octets)?;
    }
    Ok(())
}

#[test]
fn the_greatest_items_in_two_pieces(rt: HostRuntime) -> Result<(), Stop> {
    let alloc = rt.alloc();
    check_chunks(&rt, alloc, zeros(alloc, 244)?)?;
    check_chunks(&rt, alloc, nested(alloc, 32)?)
}

/// Checks that an endpoint cuts the connection for a length received in any two chunks, and that its log has these
/// lines.
fn check_length_in_chunks(
    rt: &impl Abort,
    alloc: Global,
    octets: &[u8],
    lines: &str,
) -> Result<(), Stop> {
    for cut in 0..octets.len() {
        let (first, last) = octets.split_at(cut);
        let mut end = selected(alloc)?;
        submit_first(rt, &mut end, first)?;
        let entries = end.bytes(last)?;
        let text = lines_of(alloc, &entries)?;
        assert_octets(rt, &text, lines.as_bytes(), "a length in two pieces");
    }
    Ok(())
}

/// One byte past the maximum size, and one byte less than a header has.
#[test]
fn lengths_in_two_pieces(rt: HostRuntime) -> Result<(), Stop> {
    let alloc = rt.alloc();
    check_length_in_chunks(
        &rt,
        alloc,
        b"\0\0\x01\x01\0\0\x81\x01\0\0\0\0\0\x05",
        "10 > 0000090b000000000001210a00008101000000000005\n10 cut length\n10 down\n",
    )?;
    check_length_in_chunks(&rt, alloc, b"\0\0\0\x09", "10 cut length\n10 down\n")
}

/// Checks that at most 64 transactions are open.
fn check_open(rt: &impl Abort, end: &mut End<EquipmentDesk>) -> Result<(), Stop> {
    for system in 1..=64u32 {
        assert_sent(rt, end, true, None, (10, system))?;
    }
    assert_full(rt, end);
    assert_sent(rt, end, false, None, (10, 65))?;
    assert_so(rt, end.own_open() == 64, "how many are open");
    Ok(())
}

#[test]
fn the_most_own_transactions(rt: HostRuntime) -> Result<(), Stop> {
    let mut end = selected(rt.alloc())?;
    check_open(&rt, &mut end)
}

/// Answers by the stream: 1 without an item, 2 with no reply, any other one with a failed allocation.
#[derive(Clone, Copy)]
struct ByStream;

impl Desk for ByStream {
    ghost use Rattle.std.specs.Prelude.{None, ◌==◌, if◌then◌else◌};
    ghost use Rattle.hsms_endpoint.specs.Answer.{replies, quiet};

    ghost answers = { λ desk message. if message.stream == 1 then replies None else quiet };

    fn answer(&self, alloc: Global, message: &Message) -> Result<Answer, AllocError> {
        match message.stream() {
            1 => Ok(Answer::Reply(None)),
            2 => Ok(Answer::Quiet),
            _ => Err(AllocError),
        }
    }
}

const ANSWERED_BY_STREAM: &str = "start 0
0 up
comes ffff0000000100000001
0 < ffff0000000100000001
0 > ffff0000000200000001
comes 0000810d000000000007
0 < 0000810d000000000007
0 > 0000010e000000000007
comes 000081fb000000000007
0 < 000081fb000000000007
0 > 000001fc000000000007
comes 000081fd000000000007
0 < 000081fd000000000007
0 > 000001fe000000000007
comes 000001fe000000000007
0 ! 000001fe000000000007
comes 000081ff000000000007
0 < 000081ff000000000007
0 > 00000100000000000007
comes 00008201000000000007
0 < 00008201000000000007
0 > 00000200000000000007
comes 00000201000000000007
0 < 00000201000000000007
comes 00008301000000000007
refused Memory
";

#[test]
fn uses_custom_desk(rt: HostRuntime) -> Result<(), Stop> {
    let alloc = rt.alloc();
    let given = settings(Role::Equipment, Side::Passive, 256).ok_or(Stop::Line)?;
    let mut end = end_of(alloc, given, ByStream, 1);
    judge(
        &rt,
        alloc,
        &mut end,
        ANSWERED_BY_STREAM,
        "a desk of its own",
    )
}

const ABORTED: &str = "start 0
0 up
comes ffff0000000100000001
0 < ffff0000000100000001
0 > ffff0000000200000001
comes 0000810d000000000007
0 < 0000810d000000000007
0 > 00000100000000000007
";

/// Checks that equipment with this maximum depth and a model of this many bytes aborts.
fn check_aborted(rt: &impl Abort, alloc: Global, depth: u8, length: usize) -> Result<(), Stop> {
    let given = Settings::new(
        Role::Equipment,
        Side::Passive,
        0,
        45000,
        6000,
        10000,
        5000,
        256,
        depth,
    );
    let desk = EquipmentDesk {
        mdln: vec![in alloc; 77u8; length]?,
        softrev: Vec::new(alloc),
    };
    let mut end = end_of(alloc, given.ok_or(Stop::Line)?, desk, 1);
    judge(rt, alloc, &mut end, ABORTED, "a reply past a limit")
}

// S1F14 nests 2, and with a model of 250 bytes it exceeds the maximum size.
#[test]
fn a_reply_past_a_limit_is_an_abort(rt: HostRuntime) -> Result<(), Stop> {
    let alloc = rt.alloc();
    check_aborted(&rt, alloc, 1, 1)?;
    check_aborted(&rt, alloc, 32, 250)
}

/// The time at which a host is due, after each input.
const DUE: &[(&str, Option<u64>)] = &[
    ("start 100", Some(6100)),
    ("octets 00", Some(5100)),
    ("tick 200", Some(5100)),
    ("octets 00000affff0000000200000001", None),
    ("send S1F1 W .", Some(45200)),
    ("tick 300", Some(45200)),
    ("send S1F1 W .", Some(45200)),
    ("linktest", Some(6300)),
    ("tick 400", Some(6300)),
    ("linktest", Some(6300)),
    ("lost", None),
];

/// Checks the time at which an endpoint is due after an input.
fn assert_due<D: Desk>(
    rt: &impl Abort,
    alloc: Global,
    end: &mut End<D>,
    link_state: &str,
    due: Option<u64>,
) -> Result<(), Stop> {
    submit_ok(alloc, end, link_state)?;
    assert_so(rt, end.next_due() == due, link_state);
    Ok(())
}

/// Equipment that starts so late that T7 ends past the maximum time, and T8 before it.
const DUE_LATE: &[(&str, Option<u64>)] = &[
    ("start 18446744073709541616", None),
    ("octets 00", Some(u64::MAX - 4999)),
    ("lost", None),
];

/// T8 ends at the maximum time, and past it.
const DUE_LAST: &[(&str, Option<u64>)] = &[
    ("start 18446744073709546615", None),
    ("octets 00", Some(u64::MAX)),
    ("tick 18446744073709546616", Some(u64::MAX)),
    ("octets 00", None),
];

fn check_due(
    rt: &impl Abort,
    alloc: Global,
    role: Role,
    side: Side,
    rows: &[(&str, Option<u64>)],
) -> Result<(), Stop> {
    let given = settings(role, side, 256).ok_or(Stop::Line)?;
    let mut end = end_of(alloc, given, HostDesk, 1);
    for (link_state, due) in rows {
        assert_due(rt, alloc, &mut end, link_state, *due)?;
    }
    Ok(())
}

#[test]
fn when_an_end_is_due(rt: HostRuntime) -> Result<(), Stop> {
    check_due(&rt, rt.alloc(), Role::Host, Side::Active, DUE)?;
    check_due(&rt, rt.alloc(), Role::Equipment, Side::Passive, DUE_LATE)?;
    check_due(&rt, rt.alloc(), Role::Equipment, Side::Passive, DUE_LAST)
}
