//! A host and equipment that communicate in memory, one byte at a time.

use super::party::{Party, host_of, tool_of};
use super::{
    Abort, Desk, Global, Input, Role, Side, Stop, assert_octets, assert_so, input_of, settings,
};

const HOST_LOG: &str = "hsms-log 1 host active 0 45000 6000 10000 5000 1048576 32
0 up
0 > ffff0000000100000001
2 < ffff0000000200000001
2 > 0000810d0000000000020100
4 < 0000010e0000000000020102210100010241014d410131
4 > 0000821900000000000321020102
6 < 0000021a00000000000321020102
6 > ffff0000000500000004
8 < ffff0000000600000004
8 > ffff0000000900000005
8 down
";

const EQUIPMENT_LOG: &str = "hsms-log 1 equipment passive 0 45000 6000 10000 5000 1048576 32
0 up
1 < ffff0000000100000001
1 > ffff0000000200000001
3 < 0000810d0000000000020100
3 > 0000010e0000000000020102210100010241014d410131
5 < 0000821900000000000321020102
5 > 0000021a00000000000321020102
7 < ffff0000000500000004
7 > ffff0000000600000004
9 < ffff0000000900000005
9 down
";

/// The times at which the sent bytes start to be exchanged, and the host's input then.
const SAID: &[(u64, &str)] = &[
    (1, "send S1F13 W <L> ."),
    (3, "send S2F25 W <B 0x01 0x02> ."),
    (5, "linktest"),
    (7, "separate"),
];

/// Passes the bytes that one endpoint sent to the other one, at this time.
fn pass<D: Desk + Drop, E: Desk + Drop>(
    alloc: Global,
    from: &mut Party<D>,
    to: &mut Party<E>,
    now: u64,
) -> Result<(), Stop> {
    let octets = from.take(alloc, 100)?;
    to.submit(alloc, &Input::Tick(now))?;
    to.process_input(alloc, &octets)
}

/// Exchanges the sent bytes, a millisecond each way, and then passes a line to the host.
fn exchange<D: Desk + Drop, E: Desk + Drop>(
    alloc: Global,
    host: &mut Party<D>,
    tool: &mut Party<E>,
    now: u64,
    line: &str,
) -> Result<(), Stop> {
    pass(alloc, host, tool, now)?;
    pass(alloc, tool, host, now.saturating_add(1))?;
    let input = input_of(alloc, line)?.ok_or(Stop::Line)?;
    host.submit(alloc, &input)
}

/// Exchanges all messages.
fn talk<D: Desk + Drop, E: Desk + Drop>(
    alloc: Global,
    host: &mut Party<D>,
    tool: &mut Party<E>,
) -> Result<(), Stop> {
    for (now, line) in SAID {
        exchange(alloc, host, tool, *now, line)?;
    }
    pass(alloc, host, tool, 9)
}

/// Starts both, the equipment first.
fn start<D: Desk + Drop, E: Desk + Drop>(
    alloc: Global,
    host: &mut Party<D>,
    tool: &mut Party<E>,
) -> Result<(), Stop> {
    tool.submit(alloc, &Input::Start(0))?;
    host.submit(alloc, &Input::Start(0))
}

/// Checks that the log of a party is this text of 11 entries, and passes the audit.
fn assert_log<D: Desk + Drop>(
    rt: &impl Abort,
    alloc: Global,
    party: &Party<D>,
    text: &str,
) -> Result<(), Stop> {
    assert_octets(rt, party.log.as_slice(), text.as_bytes(), "the log");
    let summary = party.audited(alloc)?;
    assert_so(rt, summary.entries == 11, "entries");
    Ok(())
}

fn check_conversation<D: Desk + Drop, E: Desk + Drop>(
    rt: &impl Abort,
    alloc: Global,
    host: &mut Party<D>,
    tool: &mut Party<E>,
) -> Result<(), Stop> {
    start(alloc, host, tool)?;
    talk(alloc, host, tool)?;
    assert_log(rt, alloc, host, HOST_LOG)?;
    assert_log(rt, alloc, tool, EQUIPMENT_LOG)
}

#[test]
fn two_ends_talk(rt: HostRuntime) -> Result<(), Stop> {
    let host = settings(Role::Host, Side::Active, 1_048_576);
    let tool = settings(Role::Equipment, Side::Passive, 1_048_576);
    let mut host = host_of(rt.alloc(), host, 1)?;
    let mut tool = tool_of(rt.alloc(), tool)?;
    check_conversation(&rt, rt.alloc(), &mut host, &mut tool)
}
