//! One of two endpoints that communicate in memory.

use super::{
    Desk, End, EndFault, Entry, EquipmentDesk, Event, Global, HostDesk, Input, Settings, Stop,
    Store, end_of, equipment, lines_of, submit,
};
use hsms_frame::{Feed, encode_frame};
use hsms_log::{Summary, Verdict, audit, write_settings};

/// An endpoint, the text of its log, and the bytes that it sent and that the other endpoint has not received yet.
#[derive(Drop)]
pub struct Party<D> {
    pub end: End<D>,
    pub log: Vec<u8>,
    pub line: Vec<u8>,
}

impl<D: Desk + Drop> Party<D> {
    pub fn new(
        alloc: Global,
        settings: Settings,
        desk: D,
        first_system: u32,
    ) -> Result<Party<D>, Stop> {
        let mut store = Store::new(vec![in alloc; 0u8; 256]?, 256, u64::MAX);
        write_settings(&mut store, &settings)?;
        let log = Vec::from_slice(alloc, store.written())?;
        Ok(Party {
            end: end_of(alloc, settings, desk, first_system),
            log,
            line: Vec::new(alloc),
        })
    }

    /// Logs new entries, and appends what is sent to the line.
    fn note(&mut self, alloc: Global, entries: &[Entry]) -> Result<(), Stop> {
        self.log.extend_from_slice(&lines_of(alloc, entries)?)?;
        for entry in entries {
            if let Event::Sent(frame) = &entry.event {
                self.line.extend_from_slice(&encode_frame(alloc, frame)?)?;
            }
        }
        Ok(())
    }

    /// Passes one input to the endpoint. A rejected input has no effect.
    pub fn submit(&mut self, alloc: Global, input: &Input) -> Result<(), Stop> {
        match submit(&mut self.end, input) {
            Ok(entries) => self.note(alloc, &entries),
            Err(EndFault::Memory) => Err(Stop::Memory),
            Err(_) => Ok(()),
        }
    }

    /// Passes bytes to the endpoint, one at a time.
    pub fn process_input(&mut self, alloc: Global, octets: &[u8]) -> Result<(), Stop> {
        for octet in octets {
            self.submit(alloc, &Input::Bytes(vec![in alloc; *octet]?))?;
        }
        Ok(())
    }

    /// Removes at most `count` bytes from the start of the line.
    pub fn take(&mut self, alloc: Global, count: usize) -> Result<Vec<u8>, Stop> {
        let (taken, rest) = self.line.split_at(count.min(self.line.len()));
        let taken = Vec::from_slice(alloc, taken)?;
        let rest = Vec::from_slice(alloc, rest)?;
        self.line = rest;
        Ok(taken)
    }

    /// Returns the summary of the log, which has to pass.
    pub fn audited(&self, alloc: Global) -> Result<Summary, Stop> {
        let mut feed = Feed::new(Vec::from_slice(alloc, &self.log)?, 4096, u64::MAX);
        match audit(alloc, &mut feed)? {
            Verdict::Pass(summary) => Ok(summary),
            Verdict::Fail { .. } => Err(Stop::Verdict),
        }
    }
}

/// Returns a host whose first system bytes are these.
pub fn host_of(
    alloc: Global,
    given: Option<Settings>,
    first: u32,
) -> Result<Party<HostDesk>, Stop> {
    Party::new(alloc, given.ok_or(Stop::Line)?, HostDesk, first)
}

/// Returns equipment whose first system bytes are 1.
pub fn tool_of(alloc: Global, given: Option<Settings>) -> Result<Party<EquipmentDesk>, Stop> {
    Party::new(alloc, given.ok_or(Stop::Line)?, equipment(alloc)?, 1)
}
