//! Endpoints that process a list, and the lines of their results.

use crate::list::List;
use crate::obliging::ReplyingDesk;
use anyhow::anyhow;
use hsms_endpoint::{Desk, End, EndFault, EquipmentDesk, HostDesk, Input, drive};
use hsms_frame::Store;
use hsms_log::write_entry;
use hsms_machine::{Entry, Event, Role, Settings};
use std::alloc::Global;

/// Passes a list to one endpoint call by call, and to another one by `drive`. Returns the lines of their results.
pub fn live(alloc: Global, list: &List) -> Result<Vec<u8>, anyhow::Error> {
    let settings = list.settings.ok_or_else(|| anyhow!("no settings"))?;
    if list.is_obliging {
        return live_with(alloc, settings, list, ReplyingDesk, ReplyingDesk);
    }
    match settings.role() {
        Role::Host => live_with(alloc, settings, list, HostDesk, HostDesk),
        Role::Equipment => {
            let desk = desk_of(alloc, list)?;
            live_with(alloc, settings, list, desk, desk_of(alloc, list)?)
        }
    }
}

/// Passes a list to two endpoints, to one call by call and to the other by `drive`, each with its handler.
fn live_with<D: Desk + Drop>(
    alloc: Global,
    settings: Settings,
    list: &List,
    desk: D,
    drive_desk: D,
) -> Result<Vec<u8>, anyhow::Error> {
    let reported = submit_all(alloc, settings, desk, list)?;
    let driven = drive_all(alloc, settings, drive_desk, list)?;
    with_end(reported, &driven)
}

fn desk_of(alloc: Global, list: &List) -> Result<EquipmentDesk, anyhow::Error> {
    Ok(EquipmentDesk {
        mdln: Vec::from_slice(alloc, &list.model)?,
        softrev: Vec::from_slice(alloc, &list.revision)?,
    })
}

/// The lines of the results: all of them, and those of entries and pending bytes alone.
#[derive(Drop)]
struct Reported {
    lines: Vec<u8>,
    accepted: Vec<u8>,
}

impl Reported {
    /// Appends the result of an accepted input.
    fn accept(&mut self, line: &[u8]) -> Result<(), anyhow::Error> {
        self.lines.extend_from_slice(line)?;
        self.accepted.extend_from_slice(line)?;
        Ok(())
    }

    /// Appends the error of a rejected input.
    fn refuse(&mut self, alloc: Global, fault: &EndFault) -> Result<(), anyhow::Error> {
        let line = format!(in alloc; "refused {fault:?}\n")?;
        self.lines.extend_from_slice(line.as_bytes())?;
        Ok(())
    }
}

/// Passes each input of a list to an endpoint.
fn submit_all<D: Desk + Drop>(
    alloc: Global,
    settings: Settings,
    desk: D,
    list: &List,
) -> Result<Reported, anyhow::Error> {
    let mut end = End::new(alloc, settings, desk, list.first_system);
    let mut reported = Reported {
        lines: Vec::new(alloc),
        accepted: Vec::new(alloc),
    };
    submit_each(alloc, &mut end, &mut reported, &list.inputs)?;
    Ok(reported)
}

/// Passes inputs to an endpoint. Appends their results, and last the pending bytes.
fn submit_each<D: Desk>(
    alloc: Global,
    end: &mut End<D>,
    reported: &mut Reported,
    inputs: &[Input],
) -> Result<(), anyhow::Error> {
    for input in inputs {
        submit_and_add(alloc, end, reported, input)?;
    }
    reported.accept(&pending_line(alloc, end.pending())?)
}

/// Passes one input to an endpoint, and appends the result.
fn submit_and_add<D: Desk>(
    alloc: Global,
    end: &mut End<D>,
    reported: &mut Reported,
    input: &Input,
) -> Result<(), anyhow::Error> {
    match submit(end, input) {
        Ok(entries) => reported.accept(&lines_of(alloc, &entries)?),
        Err(fault) => reported.refuse(alloc, &fault),
    }
}

/// Passes one input to an endpoint.
fn submit<D: Desk>(end: &mut End<D>, input: &Input) -> Result<Vec<Entry>, EndFault> {
    match input {
        Input::Start(now) => end.start(*now),
        Input::Tick(now) => end.tick(*now),
        Input::Bytes(octets) => end.bytes(octets),
        Input::Send(message) => end.send(message),
        Input::Linktest => end.linktest(),
        Input::Separate => end.separate(),
        Input::Lost => end.lost(),
    }
}

/// Returns the lines of the result of `drive` for a list.
fn drive_all<D: Desk + Drop>(
    alloc: Global,
    settings: Settings,
    desk: D,
    list: &List,
) -> Result<Vec<u8>, anyhow::Error> {
    let driven = drive(alloc, settings, desk, list.first_system, &list.inputs)?;
    let mut lines = lines_of(alloc, &driven.entries)?;
    lines.extend_from_slice(&pending_line(alloc, &driven.pending)?)?;
    Ok(lines)
}

/// Returns the lines of a list, with the keyword that says whether `drive` returned the same.
fn with_end(reported: Reported, driven: &[u8]) -> Result<Vec<u8>, anyhow::Error> {
    let Reported {
        mut lines,
        accepted,
    } = reported;
    let word = if accepted.as_slice() == driven {
        "end\n"
    } else {
        "other\n"
    };
    lines.extend_from_slice(word.as_bytes())?;
    Ok(lines)
}

/// Returns the lines of entries.
fn lines_of(alloc: Global, entries: &[Entry]) -> Result<Vec<u8>, anyhow::Error> {
    let mut room = 0usize;
    for entry in entries {
        room = room.saturating_add(room_of(entry));
    }
    let mut store = Store::new(vec![in alloc; 0u8; room]?, usize::MAX, u64::MAX);
    for entry in entries {
        write_entry(&mut store, entry)?;
    }
    Ok(Vec::from_slice(alloc, store.written())?)
}

/// Returns an upper bound of the bytes in an entry's line.
fn room_of(entry: &Entry) -> usize {
    match &entry.event {
        Event::Sent(frame) | Event::Taken(frame) | Event::Discarded(frame) => frame
            .text
            .len()
            .saturating_mul(2)
            .saturating_add(50),
        _ => 50,
    }
}

fn pending_line(alloc: Global, octets: &[u8]) -> Result<Vec<u8>, anyhow::Error> {
    if octets.is_empty() {
        return Ok(Vec::from_slice(alloc, b"pending -\n")?);
    }
    let digits = hex::encode(alloc, octets)?;
    let line = format!(in alloc; "pending {digits}\n")?;
    Ok(Vec::from_slice(alloc, line.as_bytes())?)
}
