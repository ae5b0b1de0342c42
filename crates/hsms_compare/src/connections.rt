//! Logs of several connections.

use crate::comparison::{contradiction_of, is_open};
use crate::contradiction::Contradiction;
use hsms_machine::{Entry, Event};
use std::alloc::{AllocError, Global};

/// The first contradiction of two logs of several connections.
#[derive(Clone, Copy, Debug, PartialEq, Eq)]
pub struct LogContradiction {
    /// The index in the host's log of the first entry of its connection.
    pub host: usize,
    /// The index in the equipment's log of the first entry of its connection.
    pub equipment: usize,
    /// The contradiction. Its entries are counted from these two.
    pub contradiction: Contradiction,
}

impl LogContradiction {
    ghost use Rattle.std.specs.Prelude.{◌≡◌, ◌<◌, ◌≤◌, ◌==◌, ◌&&◌, take, drop, length, IfOk, MatchOption};
    ghost use Rattle.hsms_machine.specs.Entry.{is_up as begins};
    ghost use Rattle.hsms_compare.specs.Connections.{CanAgreeThroughout, IsFirstIn, first_connection, later_connections};
    ghost use Rattle.hsms_compare.specs.Agreement.{is_open as may_have_more};

    /// Returns the first contradiction of two logs. Returns `None` if all connections that both logs have agree.
    /// Connections are paired in order. The last one of a log is open if it does not end with `down`.
    ///
    /// # Errors
    ///
    /// Returns `AllocError` if an allocation fails.
    pub fn first(
        alloc: Global,
        host: &[Entry],
        equipment: &[Entry],
    ) -> Result<Option<LogContradiction>, AllocError>
        ensures { IfOk result (λ found.
            MatchOption found (CanAgreeThroughout host.now equipment.now) (IsFirstIn host.now equipment.now)) }
    {
        let mut host_left = host;
        let mut equipment_left = equipment;
        while !host_left.is_empty() && !equipment_left.is_empty() {
            let (host_part, host_rest) = host_left.split_at(Self::first_length(host_left));
            let (equipment_part, equipment_rest) = equipment_left.split_at(Self::first_length(
                equipment_left,
            ));
            let found = contradiction_of(
                alloc,
                host_part,
                Self::is_open_last(host_part, host_rest),
                equipment_part,
                Self::is_open_last(equipment_part, equipment_rest),
            )?;
            if let Some(contradiction) = found {
                return Ok(Some(LogContradiction {
                    host: host.len() - host_left.len(),
                    equipment: equipment.len() - equipment_left.len(),
                    contradiction,
                }));
            }
            host_left = host_rest;
            equipment_left = equipment_rest;
        }
        Ok(None)
    }

    /// Returns whether a connection may have more entries: no other one follows in its log, and it is open.
    fn is_open_last(connection: &[Entry], rest: &[Entry]) -> bool
        ensures { result ≡ ((length rest.now == 0) && may_have_more connection.now) }
    {
        rest.is_empty() && is_open(connection)
    }

    /// Returns the number of entries of the first connection of a log.
    fn first_length(log: &[Entry]) -> usize
        ensures within { result ≤ length log.now }
        ensures some { 0 < length log.now → 0 < result }
        ensures prefix { take result log.now ≡ first_connection log.now }
        ensures rest { drop result log.now ≡ later_connections log.now }
    {
        for i in 1..log.len() {
            if Self::is_up(&log[i].event) {
                return i;
            }
        }
        log.len()
    }

    fn is_up(event: &Event) -> bool
        ensures { result ≡ begins event.now }
    {
        match event {
            Event::Up => true,
            Event::Sent(_) => false,
            Event::Taken(_) => false,
            Event::Discarded(_) => false,
            Event::T3(_) => false,
            Event::Cut(_) => false,
            Event::Down => false,
        }
    }
}
