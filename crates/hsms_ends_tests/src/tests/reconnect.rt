//! Consecutive connections, served over a link in memory in one log.

use super::connection::{audited, link_of, log_of, settings_of};
use super::{
    Abort, Global, Role, Settings, Stop, Store, TurnDesk, assert_octets, assert_so, equipment,
};
use hsms_ends::{
    HostDesk, Lent, Scripted, ServeAgainOptions, ServeFault, ServeOptions, ServedAgain, Step,
    serve_again,
};
use secs_text::read;

/// Checks that this many connections were served. A failed allocation is passed on.
fn assert_served(
    rt: &impl Abort,
    answer: Result<ServedAgain, ServeFault>,
    connections: u64,
) -> Result<(), Stop> {
    match answer {
        Err(ServeFault::Memory) => Err(Stop::Memory),
        _ => {
            let want = ServedAgain {
                connections,
                complete: true,
            };
            assert_so(rt, answer == Ok(want), "what is served");
            Ok(())
        }
    }
}

/// Checks that a log passes the audit with this number of entries.
fn assert_entries(rt: &impl Abort, alloc: Global, log: &Store, entries: u64) -> Result<(), Stop> {
    let summary = audited(alloc, log.written())?;
    assert_so(rt, summary.entries == entries, "entries");
    Ok(())
}

/// Serves two connections of equipment.
fn serve_lent<D: TurnDesk>(
    alloc: Global,
    link: &mut Scripted,
    log: &mut Store,
    settings: Settings,
    desk: &D,
) -> Result<ServedAgain, ServeFault> {
    let options = ServeAgainOptions {
        first: ServeOptions {
            settings,
            first_system: 1,
            script: &[],
            linktest: None,
            turns: 100,
        },
        later_script: &[],
        connections: 2,
    };
    serve_again(alloc, link, log, Lent { desk }, &options)
}

/// Checks that two connections of equipment give this text, which passes the audit with this number of entries.
fn check_lent<D: TurnDesk>(
    rt: &impl Abort,
    alloc: Global,
    link: &mut Scripted,
    log: &mut Store,
    desk: &D,
    text: &str,
    entries: u64,
) -> Result<(), Stop> {
    let settings = settings_of(Role::Equipment).ok_or(Stop::Line)?;
    let answer = serve_lent(alloc, link, log, settings, desk);
    assert_served(rt, answer, 2)?;
    assert_octets(rt, log.written(), text.as_bytes(), "log");
    assert_entries(rt, alloc, log, entries)
}

/// The same check over a link with these times and waits.
pub fn check_twice<D: TurnDesk>(
    rt: &impl Abort,
    alloc: Global,
    moments: &[u64],
    waits: &str,
    desk: &D,
    text: &str,
    entries: u64,
) -> Result<(), Stop> {
    let mut link = link_of(alloc, moments, waits, 4096, u64::MAX)?;
    let mut log = log_of(alloc, 4096, 4096, u64::MAX)?;
    check_lent(rt, alloc, &mut link, &mut log, desk, text, entries)
}

const EQUIPMENT_LOG: &str = "hsms-log 2 equipment passive 0 45000 6000 10000 5000 1048576 32
7 up
7 < ffff0000000100000001
7 > ffff0000000200000001
7 < ffff0000000900000003
7 down
7 up
7 < ffff0000000100000001
7 > ffff0000000200000001
7 < ffff0000000900000003
7 down
";

/// The messages that equipment receives: it is selected and left, twice.
const SELECTED_TWICE: &str = "ffff0000000100000001
ffff0000000900000003
ffff0000000100000001
ffff0000000900000003
";

/// The clock goes back to 3 with the second connection; the times of the log do not.
#[test]
fn a_tool_is_selected_twice(rt: HostRuntime) -> Result<(), Stop> {
    let alloc = rt.alloc();
    let desk = equipment(alloc)?;
    check_twice(
        &rt,
        alloc,
        &[7, 7, 7, 7, 7, 3],
        SELECTED_TWICE,
        &desk,
        EQUIPMENT_LOG,
        10,
    )
}

/// Serves three connections of a host.
fn serve_host(
    alloc: Global,
    link: &mut Scripted,
    log: &mut Store,
    settings: Settings,
    script: &[Step],
) -> Result<ServedAgain, ServeFault> {
    let options = ServeAgainOptions {
        first: ServeOptions {
            settings,
            first_system: 1,
            script,
            linktest: None,
            turns: 100,
        },
        later_script: &[],
        connections: 3,
    };
    serve_again(alloc, link, log, HostDesk, &options)
}

/// Checks that three connections of a host give a log that passes the audit with 15 entries.
fn check_host(
    rt: &impl Abort,
    alloc: Global,
    link: &mut Scripted,
    log: &mut Store,
    script: &[Step],
) -> Result<(), Stop> {
    let settings = settings_of(Role::Host).ok_or(Stop::Line)?;
    let answer = serve_host(alloc, link, log, settings, script);
    assert_served(rt, answer, 3)?;
    assert_entries(rt, alloc, log, 15)
}

/// Returns what the host sends.
fn script(alloc: Global) -> Result<Vec<Step>, Stop> {
    let message = read(alloc, b"S1F1 W .", 32)?;
    let mut script = Vec::new(alloc);
    script.push(Step::Send(message))?;
    Ok(script)
}

/// The messages that the host receives. In the first connection it is selected, answered and left; in the second one
/// it is selected and left.
const ANSWERED_ONCE: &str = "ffff0000000200000001
00000102000000000002
ffff0000000900000003
ffff0000000200000001
ffff0000000900000003
";

/// A host that sends its script only in the first connection. In the third one the peer is gone.
#[test]
fn a_host_connects_again(rt: HostRuntime) -> Result<(), Stop> {
    let alloc = rt.alloc();
    let mut link = link_of(alloc, &[], ANSWERED_ONCE, 4096, u64::MAX)?;
    let mut log = log_of(alloc, 4096, 4096, u64::MAX)?;
    let script = script(alloc)?;
    check_host(&rt, alloc, &mut link, &mut log, &script)
}
