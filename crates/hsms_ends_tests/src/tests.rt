//! Example sessions of one endpoint: its inputs, and the lines of its log.

mod answers;
mod connection;
mod corners;
mod desks;
mod edges;
mod failing;
mod in_turn;
mod limits;
mod order;
mod own;
mod party;
mod reconnect;
mod refused;
mod scripted;
mod serving;
mod talk;
mod walks;

use answers::ANSWERS;
use corners::CORNERS;
use edges::EDGES;
use hex::FromHexError;
use hsms_ends::{
    Answer, Desk, Driven, End, EndFault, EquipmentDesk, HostDesk, Input, TurnDesk, drive,
};
use hsms_frame::{FrameFault, Store};
use hsms_log::{AuditFault, LogFault, read_settings, write_entry};
use hsms_machine::{Entry, Event, Role, Settings, Side};
use own::OWN;
use secs_text::{Message, TextFault, read};
use std::alloc::{AllocError, AllocFailed, Global};
use std::process::Abort;

/// Why a test ends. It is small and can be copied, since the check follows each one to where the test ends. The type
/// of `std` holds a text and takes the check several times as long.
#[derive(Clone, Copy, Debug)]
enum Stop {
    Memory,
    /// A call that should be accepted returned an error.
    Refused,
    /// A row cannot be read.
    Line,
    /// A log fails its audit.
    Verdict,
    /// A run does not end.
    Endless,
}

impl From<AllocError> for Stop {
    fn from(_: AllocError) -> Stop {
        Stop::Memory
    }
}

impl<T: Drop> From<AllocFailed<T>> for Stop {
    fn from(_: AllocFailed<T>) -> Stop {
        Stop::Memory
    }
}

impl From<EndFault> for Stop {
    fn from(fault: EndFault) -> Stop {
        match fault {
            EndFault::Memory => Stop::Memory,
            _ => Stop::Refused,
        }
    }
}

impl From<FromHexError> for Stop {
    fn from(fault: FromHexError) -> Stop {
        match fault {
            FromHexError::OutOfMemory => Stop::Memory,
            _ => Stop::Line,
        }
    }
}

impl From<TextFault> for Stop {
    fn from(fault: TextFault) -> Stop {
        match fault {
            TextFault::Memory => Stop::Memory,
            _ => Stop::Line,
        }
    }
}

impl From<FrameFault> for Stop {
    fn from(fault: FrameFault) -> Stop {
        match fault {
            FrameFault::Memory => Stop::Memory,
            _ => Stop::Refused,
        }
    }
}

impl From<AuditFault> for Stop {
    fn from(fault: AuditFault) -> Stop {
        match fault {
            AuditFault::Memory => Stop::Memory,
            _ => Stop::Refused,
        }
    }
}

impl From<LogFault> for Stop {
    fn from(_: LogFault) -> Stop {
        Stop::Refused
    }
}

// Sessions are one text, since a constant of many parts takes the check longer, and so does each function that is
// given one. Each begins with `# ` and its name, the first line of its log, and `from` with the first system bytes.
// Its other lines are the inputs of the endpoint, each followed by the lines of the log or the error that it returns.
// The last line is what is pending, if anything is. The inputs are `start N`, `tick N`, `comes DIGITS` (a message as
// in a line of a log), `octets DIGITS`, `send NOTATION`, `linktest`, `separate` and `lost`.

/// Returns the first line, and the others.
fn first_of<'a>(lines: &'a str) -> (&'a str, &'a str) {
    lines.split_once('\n').unwrap_or((lines, ""))
}

/// Returns the settings in a session's second line.
fn settings_in(line: &str) -> Result<Settings, Stop> {
    read_settings(line.as_bytes()).ok_or(Stop::Line)
}

/// Returns the first system bytes in its third line.
fn system_in(line: &str) -> Result<u32, Stop> {
    let number = number_of(line.strip_prefix("from ").ok_or(Stop::Line)?)?;
    u32::try_from(number).ok().ok_or(Stop::Line)
}

fn settings(role: Role, side: Side, max: u32) -> Option<Settings> {
    Settings::new(role, side, 0, 45000, 6000, 10000, 5000, max, 32)
}

/// Returns the message handler of equipment with model M and revision 1.
fn equipment(alloc: Global) -> Result<EquipmentDesk, AllocError> {
    Ok(EquipmentDesk {
        mdln: Vec::from_slice(alloc, b"M")?,
        softrev: Vec::from_slice(alloc, b"1")?,
    })
}

/// Returns the lines of entries.
fn lines_of(alloc: Global, entries: &[Entry]) -> Result<Vec<u8>, Stop> {
    let room = entries.len().saturating_mul(600);
    let mut store = Store::new(vec![in alloc; 0u8; room]?, 4096, u64::MAX);
    for entry in entries {
        write_entry(&mut store, entry)?;
    }
    Ok(Vec::from_slice(alloc, store.written())?)
}

/// Returns the bytes of the message of a line.
fn octets_of(alloc: Global, digits: &str) -> Result<Vec<u8>, Stop> {
    let octets = hex::decode(alloc, digits)?;
    let length = u32::try_from(octets.len()).ok().ok_or(Stop::Line)?;
    let mut message = Vec::from_slice(alloc, &length.to_be_bytes())?;
    message.extend_from_slice(&octets)?;
    Ok(message)
}

/// Returns the bytes of several messages.
fn octets_of_all(alloc: Global, messages: &str) -> Result<Vec<u8>, Stop> {
    let mut octets = Vec::new(alloc);
    for message in messages.split_whitespace() {
        octets.extend_from_slice(&octets_of(alloc, message)?)?;
    }
    Ok(octets)
}

fn number_of(text: &str) -> Result<u64, Stop> {
    Ok(text.parse::<u64>().ok().ok_or(Stop::Line)?)
}

/// Returns the input of a line, or `None` if the line is a result.
fn input_of(alloc: Global, line: &str) -> Result<Option<Input>, Stop> {
    let (word, rest) = line.split_once(' ').unwrap_or((line, ""));
    let input = match word {
        "start" => Input::Start(number_of(rest)?),
        "tick" => Input::Tick(number_of(rest)?),
        "comes" => Input::Bytes(octets_of(alloc, rest)?),
        "octets" => Input::Bytes(hex::decode(alloc, rest)?),
        "send" => Input::Send(read(alloc, rest.as_bytes(), 100)?),
        "linktest" => Input::Linktest,
        "separate" => Input::Separate,
        "lost" => Input::Lost,
        _ => return Ok(None),
    };
    Ok(Some(input))
}

/// Passes one input to an endpoint.
fn submit<D: TurnDesk>(end: &mut End<D>, input: &Input) -> Result<Vec<Entry>, EndFault> {
    match input {
        Input::Start(now) => end.start(*now),
        Input::Tick(now) => end.tick(*now),
        Input::Bytes(octets) => end.bytes(octets),
        Input::Send(message) => end.send(message),
        Input::Linktest => end.linktest(),
        Input::Separate => end.separate(),
        Input::Lost => end.lost(),
    }
}

// A test is made of small functions without clauses, which borrow what others own. An assertion in a function of its
// own, and few exits from a function that owns much, are proved in a tenth of the time.

fn assert_so(rt: &impl Abort, is_so: bool, name: &str) {
    assert!(rt; is_so, "{name}");
}

fn assert_octets(rt: &impl Abort, octets: &[u8], want: &[u8], name: &str) {
    assert_so(rt, octets == want, name);
}

fn assert_fault(rt: &impl Abort, fault: Option<EndFault>, want: Option<EndFault>, name: &str) {
    assert_so(rt, fault == want, name);
}

/// Checks that a spent endpoint rejects an input.
fn assert_refused<D: TurnDesk>(rt: &impl Abort, end: &mut End<D>, input: &Input) {
    let answer = submit(end, input);
    assert_fault(rt, answer.err(), Some(EndFault::Spent), "spent");
}

/// Passes an input to an endpoint that accepts it.
fn submit_ok<D: TurnDesk>(alloc: Global, end: &mut End<D>, line: &str) -> Result<(), Stop> {
    let input = input_of(alloc, line)?.ok_or(Stop::Line)?;
    submit(end, &input)?;
    Ok(())
}

/// Checks that a spent endpoint rejects each call. If an allocation fails, a test ends with that error.
fn assert_spent<D: TurnDesk>(rt: &impl Abort, alloc: Global, end: &mut End<D>) {
    let message = Message::new(1, 1, true, None);
    assert_refused(rt, end, &Input::Start(0));
    assert_refused(rt, end, &Input::Tick(0));
    assert_refused(rt, end, &Input::Bytes(Vec::new(alloc)));
    assert_refused(rt, end, &Input::Send(message));
    assert_refused(rt, end, &Input::Linktest);
    assert_refused(rt, end, &Input::Separate);
    assert_refused(rt, end, &Input::Lost);
}

/// Appends a line.
fn add_line(text: &mut Vec<u8>, word: &str, rest: &str) -> Result<(), AllocError> {
    text.extend_from_slice(word.as_bytes())?;
    text.extend_from_slice(rest.as_bytes())?;
    text.push(b'\n')?;
    Ok(())
}

/// Appends the pending bytes, if there are any.
fn add_pending(alloc: Global, text: &mut Vec<u8>, pending: &[u8]) -> Result<(), AllocError> {
    if pending.is_empty() {
        return Ok(());
    }
    add_line(text, "pending ", hex::encode(alloc, pending)?.as_str())
}

/// Appends the lines of entries. Returns no error of the endpoint.
fn add_entries(
    alloc: Global,
    entries: &[Entry],
    text: &mut Vec<u8>,
) -> Result<Option<EndFault>, Stop> {
    let lines = lines_of(alloc, entries)?;
    text.extend_from_slice(&lines)?;
    Ok(None)
}

/// Appends the line of an error, and returns the error.
fn add_fault(alloc: Global, fault: EndFault, text: &mut Vec<u8>) -> Result<Option<EndFault>, Stop> {
    let name = format!(in alloc; "{fault:?}")?;
    add_line(text, "refused ", name.as_str())?;
    Ok(Some(fault))
}

/// Passes one input to an endpoint, and appends the lines of the result. Returns the endpoint's error.
fn add_answer<D: TurnDesk>(
    alloc: Global,
    end: &mut End<D>,
    input: &Input,
    text: &mut Vec<u8>,
) -> Result<Option<EndFault>, Stop> {
    match submit(end, input) {
        Ok(entries) => add_entries(alloc, &entries, text),
        Err(fault) => add_fault(alloc, fault, text),
    }
}

/// Passes a line to an endpoint if it is an input, and appends the line and the result.
fn add_returned<D: TurnDesk>(
    alloc: Global,
    end: &mut End<D>,
    line: &str,
    text: &mut Vec<u8>,
) -> Result<Option<EndFault>, Stop> {
    let Some(input) = input_of(alloc, line)? else {
        return Ok(None);
    };
    add_line(text, line, "")?;
    add_answer(alloc, end, &input, text)
}

/// Passes a complete session to an endpoint, and appends its lines. Returns whether an allocation of the endpoint
/// failed.
fn add_session<D: TurnDesk>(
    alloc: Global,
    end: &mut End<D>,
    session: &str,
    text: &mut Vec<u8>,
) -> Result<bool, Stop> {
    for line in session.lines() {
        if add_returned(alloc, end, line, text)? == Some(EndFault::Memory) {
            return Ok(true);
        }
    }
    add_pending(alloc, text, end.pending())?;
    Ok(false)
}

/// Checks that a session has these lines. An endpoint whose allocation failed is spent; that error is passed on
/// unless the session expects it.
fn judge<D: TurnDesk>(
    rt: &impl Abort,
    alloc: Global,
    end: &mut End<D>,
    session: &str,
    name: &str,
) -> Result<(), Stop> {
    let mut text = Vec::new(alloc);
    let is_spent = add_session(alloc, end, session, &mut text)?;
    if is_spent {
        assert_spent(rt, alloc, end);
    }
    if is_spent && text.as_slice() != session.as_bytes() {
        return Err(Stop::Memory);
    }
    assert_octets(rt, &text, session.as_bytes(), name);
    Ok(())
}

fn end_of<D: TurnDesk>(alloc: Global, settings: Settings, desk: D, first_system: u32) -> End<D> {
    End::new(alloc, settings, desk, first_system)
}

/// Checks the lines of a session. Each role has its own message handler.
fn check_lines(
    rt: &impl Abort,
    alloc: Global,
    settings: Settings,
    first_system: u32,
    lines: &str,
    name: &str,
) -> Result<(), Stop> {
    match settings.role() {
        Role::Host => {
            let mut end = end_of(alloc, settings, HostDesk, first_system);
            judge(rt, alloc, &mut end, lines, name)
        }
        Role::Equipment => {
            let mut end = end_of(alloc, settings, equipment(alloc)?, first_system);
            judge(rt, alloc, &mut end, lines, name)
        }
    }
}

fn check_one(rt: &impl Abort, alloc: Global, session: &str) -> Result<(), Stop> {
    let (name, rest) = first_of(session);
    let (line, rest) = first_of(rest);
    let (first, lines) = first_of(rest);
    check_lines(
        rt,
        alloc,
        settings_in(line)?,
        system_in(first)?,
        lines,
        name,
    )
}

fn check_all(rt: &impl Abort, alloc: Global, sessions: &str) -> Result<(), Stop> {
    for session in sessions.split("# ") {
        if !session.is_empty() {
            check_one(rt, alloc, session)?;
        }
    }
    Ok(())
}

#[test]
fn what_follows_messages(rt: HostRuntime) -> Result<(), Stop> {
    check_all(&rt, rt.alloc(), ANSWERS)
}

#[test]
fn own_messages_and_timers(rt: HostRuntime) -> Result<(), Stop> {
    check_all(&rt, rt.alloc(), OWN)
}

#[test]
fn corners_of_an_end(rt: HostRuntime) -> Result<(), Stop> {
    check_all(&rt, rt.alloc(), CORNERS)
}

#[test]
fn edges_of_an_end(rt: HostRuntime) -> Result<(), Stop> {
    check_all(&rt, rt.alloc(), EDGES)
}

/// Returns the inputs of a session, as a list.
fn inputs_of(alloc: Global, session: &str) -> Result<Vec<Input>, Stop> {
    let mut inputs = Vec::new(alloc);
    for line in session.lines() {
        if let Some(input) = input_of(alloc, line)? {
            inputs.push(input)?;
        }
    }
    Ok(inputs)
}

/// Returns the result of a list.
fn driven(
    alloc: Global,
    settings: Settings,
    first_system: u32,
    inputs: &[Input],
) -> Result<Driven, Stop> {
    match settings.role() {
        Role::Host => Ok(drive(alloc, settings, HostDesk, first_system, inputs)?),
        Role::Equipment => {
            let desk = equipment(alloc)?;
            Ok(drive(alloc, settings, desk, first_system, inputs)?)
        }
    }
}

/// Returns the lines of the result of a list.
fn driven_lines(alloc: Global, driven: &Driven) -> Result<Vec<u8>, Stop> {
    let mut text = lines_of(alloc, &driven.entries)?;
    add_pending(alloc, &mut text, &driven.pending)?;
    Ok(text)
}

/// Returns whether a line is the result of a call: an entry, or the pending bytes.
fn is_accepted(line: &str) -> bool {
    match line.split_once(' ') {
        Some(("pending", _)) => true,
        Some((time, _)) => number_of(time).is_ok(),
        None => false,
    }
}

/// Returns the lines of entries and of pending bytes in a session, one after the other.
fn accepted_lines(alloc: Global, session: &str) -> Result<Vec<u8>, AllocError> {
    let mut text = Vec::new(alloc);
    for line in session.lines() {
        if is_accepted(line) {
            add_line(&mut text, line, "")?;
        }
    }
    Ok(text)
}

/// Returns the lines of the result of a list of inputs.
fn lines_of_all(
    alloc: Global,
    settings: Settings,
    first_system: u32,
    inputs: &[Input],
) -> Result<Vec<u8>, Stop> {
    let driven = driven(alloc, settings, first_system, inputs)?;
    driven_lines(alloc, &driven)
}

/// Checks that these are the lines of entries and of pending bytes in a session.
fn assert_accepted(
    rt: &impl Abort,
    alloc: Global,
    lines: &[u8],
    session: &str,
    name: &str,
) -> Result<(), Stop> {
    let accepted = accepted_lines(alloc, session)?;
    assert_octets(rt, lines, &accepted, name);
    Ok(())
}

/// Returns the lines of the result of a session's list.
fn lines_of_session(
    alloc: Global,
    settings: Settings,
    first_system: u32,
    session: &str,
) -> Result<Vec<u8>, Stop> {
    let inputs = inputs_of(alloc, session)?;
    lines_of_all(alloc, settings, first_system, &inputs)
}

/// Checks that the entries of a session's list are the lines of its calls, one after the other.
fn check_list(
    rt: &impl Abort,
    alloc: Global,
    settings: Settings,
    first_system: u32,
    session: &str,
    name: &str,
) -> Result<(), Stop> {
    let lines = lines_of_session(alloc, settings, first_system, session)?;
    assert_accepted(rt, alloc, &lines, session, name)
}

fn check_driven(rt: &impl Abort, alloc: Global, session: &str) -> Result<(), Stop> {
    let (name, rest) = first_of(session);
    let (line, rest) = first_of(rest);
    let (first, lines) = first_of(rest);
    check_list(
        rt,
        alloc,
        settings_in(line)?,
        system_in(first)?,
        lines,
        name,
    )
}

fn check_all_driven(rt: &impl Abort, alloc: Global, sessions: &str) -> Result<(), Stop> {
    for session in sessions.split("# ") {
        if !session.is_empty() {
            check_driven(rt, alloc, session)?;
        }
    }
    Ok(())
}

#[test]
fn sessions_as_lists(rt: HostRuntime) -> Result<(), Stop> {
    check_all_driven(&rt, rt.alloc(), ANSWERS)?;
    check_all_driven(&rt, rt.alloc(), OWN)?;
    check_all_driven(&rt, rt.alloc(), CORNERS)
}

#[test]
fn edges_as_lists(rt: HostRuntime) -> Result<(), Stop> {
    check_all_driven(&rt, rt.alloc(), EDGES)
}
