//! Two endpoints with long random lists of inputs. Each of their logs passes the audit.

use super::party::{Party, host_of, tool_of};
use super::{Desk, Global, Input, Message, Role, Settings, Side, Stop, octets_of, read};
use hsms_log::Summary;

/// Messages that no endpoint sends by itself. Their system bytes are replaced.
const STRANGE: &[&str] = &[
    "00008101010000000000",
    "ffff0000000300000000",
    "ffff0000000600000000",
    "ffff0000000200000000",
    "ffff0001000200000000",
    "ffff0000000100000000",
    "ffff000000050000000000",
    "00058101000000000000",
    "0000810100000000000040",
    "00000102000000000000",
    "0000010000000000000041",
    "00000100000000000000",
    "00008102000000000000",
    "00000202000000000000",
    "0000820300000000000041",
    "0000821900000000000041024142",
    "00008703000000000000",
    "000081ff000000000000",
    "00000905000000000000",
    "ffff0501000700000000",
    "00000004000700000000",
    "00000101000000000000010101010100",
];

/// Messages that are sent if the session is selected.
const SAID: &[&str] = &[
    "S1F1 W .",
    "S1F13 W <L> .",
    "S2F25 W <B 0x01 0x02 0x03> .",
    "S2F25 W <A \"no\"> .",
    "S2F17 W .",
    "S6F11 <L <U4 1> <U4 2>> .",
    "S5F1 W <U1 1> .",
    "S1F2 .",
    "S9F5 <B 0x00> .",
    "S1F1 W <L <L <L <L <L>>>>> .",
];

/// The steps of time, in ms. T3 is 150, T6 300, T7 400 and T8 500.
const JUMPS: &[u64] = &[0, 0, 0, 1, 1, 2, 3, 10];

/// The rare steps of time, in ms.
const LONG_JUMPS: &[u64] = &[150, 151, 300, 301, 400, 401, 500, 501];

/// The maximum number of bytes received at once.
const PIECES: &[usize] = &[0, 1, 3, 13, 14, 40, 200, 1000, 1000];

/// Random numbers: a linear congruential generator.
#[derive(Drop)]
struct Chance {
    state: u64,
}

impl Chance {
    /// Returns a number below a count.
    fn below(&mut self, count: u64) -> u64 {
        self.state = self
            .state
            .wrapping_mul(6_364_136_223_846_793_005)
            .wrapping_add(1_442_695_040_888_963_407);
        (self.state >> 33) % count.max(1)
    }
}

fn settings(role: Role, link: Side) -> Option<Settings> {
    Settings::new(role, link, 0, 150, 300, 400, 500, 256, 4)
}

/// Returns one of some values.
fn one_of<T: Copy>(chance: &mut Chance, values: &[T]) -> Result<T, Stop> {
    let index = chance.below(values.len() as u64) as usize;
    Ok(*values.get(index).ok_or(Stop::Line)?)
}

/// Sets the last of a message's system bytes.
fn set_system(octets: &mut [u8], system: u8) {
    if let Some(last) = octets.get_mut(13) {
        *last = system;
    }
}

/// Returns an unusual message, with system bytes from 0 to 7.
fn strange(alloc: Global, chance: &mut Chance) -> Result<Vec<u8>, Stop> {
    let mut octets = octets_of(alloc, one_of(chance, STRANGE)?)?;
    let system = u8::try_from(chance.below(8)).unwrap_or(0);
    set_system(&mut octets, system);
    Ok(octets)
}

fn said(alloc: Global, chance: &mut Chance) -> Result<Message, Stop> {
    Ok(read(alloc, one_of(chance, SAID)?.as_bytes(), 100)?)
}

/// Returns received bytes: mostly those that the other endpoint sent, sometimes garbage instead.
fn garbled(alloc: Global, chance: &mut Chance, line: Vec<u8>) -> Result<Vec<u8>, Stop> {
    match chance.below(2000) {
        0 => Ok(Vec::from_slice(alloc, &[0, 0, 0, 9])?),
        1 => Ok(Vec::from_slice(alloc, &[0, 0, 1, 1, 0, 0, 129, 1, 0, 0, 0, 0, 0, 5])?),
        2..=300 if line.is_empty() => strange(alloc, chance),
        _ => Ok(line),
    }
}

/// Returns the next input of an endpoint, at this time.
fn next_input<E: Desk + Drop>(
    alloc: Global,
    chance: &mut Chance,
    other: &mut Party<E>,
    now: u64,
) -> Result<Input, Stop> {
    let input = match chance.below(2000) {
        0..=599 => Input::Tick(now),
        600..=799 => Input::Send(said(alloc, chance)?),
        800..=839 => Input::Linktest,
        840..=859 => Input::Start(now),
        860 => Input::Separate,
        861 => Input::Lost,
        _ => {
            let line = other.take(alloc, one_of(chance, PIECES)?)?;
            Input::Bytes(garbled(alloc, chance, line)?)
        }
    };
    Ok(input)
}

/// Passes one input to an endpoint.
fn step<D: Desk + Drop, E: Desk + Drop>(
    alloc: Global,
    chance: &mut Chance,
    party: &mut Party<D>,
    other: &mut Party<E>,
    now: u64,
) -> Result<(), Stop> {
    let input = next_input(alloc, chance, other, now)?;
    party.submit(alloc, &input)
}

/// Returns a step of time.
fn jump(chance: &mut Chance) -> Result<u64, Stop> {
    let jumps = if chance.below(500) == 0 {
        LONG_JUMPS
    } else {
        JUMPS
    };
    one_of(chance, jumps)
}

/// Advances the time, and then passes one input to one of two endpoints. Returns the time.
fn go_on<D: Desk + Drop, E: Desk + Drop>(
    alloc: Global,
    chance: &mut Chance,
    host: &mut Party<D>,
    tool: &mut Party<E>,
    now: u64,
) -> Result<u64, Stop> {
    let now = now.saturating_add(jump(chance)?);
    if chance.below(2) == 0 {
        step(alloc, chance, host, tool, now)?;
    } else {
        step(alloc, chance, tool, host, now)?;
    }
    Ok(now)
}

/// Passes a thousand inputs to two endpoints.
fn wander<D: Desk + Drop, E: Desk + Drop>(
    alloc: Global,
    chance: &mut Chance,
    host: &mut Party<D>,
    tool: &mut Party<E>,
) -> Result<(), Stop> {
    let mut now = 0u64;
    for _ in 0..1000 {
        now = go_on(alloc, chance, host, tool, now)?;
    }
    Ok(())
}

/// Starts two endpoints and runs them. Returns the summaries of their logs.
fn live<D: Desk + Drop, E: Desk + Drop>(
    alloc: Global,
    chance: &mut Chance,
    host: &mut Party<D>,
    tool: &mut Party<E>,
) -> Result<[Summary; 2], Stop> {
    host.submit(alloc, &Input::Start(0))?;
    tool.submit(alloc, &Input::Start(0))?;
    wander(alloc, chance, host, tool)?;
    Ok([host.audited(alloc)?, tool.audited(alloc)?])
}

/// Runs two endpoints with a list of a thousand inputs.
fn walk(alloc: Global, seed: u64) -> Result<[Summary; 2], Stop> {
    let mut chance = Chance { state: seed };
    let (one, two) = if chance.below(2) == 0 {
        (Side::Active, Side::Passive)
    } else {
        (Side::Passive, Side::Active)
    };
    let mut host = host_of(alloc, settings(Role::Host, one), 0xffff_fff0)?;
    let mut tool = tool_of(alloc, settings(Role::Equipment, two))?;
    live(alloc, &mut chance, &mut host, &mut tool)
}

#[test]
fn walks_of_two_ends(rt: HostRuntime) -> Result<(), Stop> {
    let (mut entries, mut discarded, mut expired) = (0u64, 0u64, 0u64);
    for seed in 0..20u64 {
        for summary in &walk(rt.alloc(), seed)? {
            entries = entries.saturating_add(summary.entries);
            discarded = discarded.saturating_add(summary.discarded);
            expired = expired.saturating_add(summary.expired);
        }
    }
    assert!(rt; 1000 < entries && 100 < discarded && 20 < expired);
    Ok(())
}
