//! The events of a connection.

ghost use Rattle.std.specs.Prelude.{◌≡◌, get_or, OnOk};
ghost use Rattle.capture_tcp.specs.EventSteps.{separated_side, comes_up, closes_down, says, says_first};
ghost use Rattle.capture_tcp.specs.InnerEventSteps.{ProcessesInput};
ghost use Rattle.capture_tcp.specs.ConnectionEvents.{is_left_out, is_separate};
ghost use Rattle.capture_tcp.specs.KnownStreams.{end_at};
ghost use Rattle.std.specs.Option.{option_map};
ghost use Rattle.capture_tcp.specs.InnerTimestamps.{KeepsTimes};

use crate::packet::Side;
use std::alloc::AllocError;

/// An event of a connection.
#[derive(Drop)]
pub enum Event {
    /// The connection was established.
    Up,
    /// One end sent a message, with the four bytes of its length.
    Message {
        /// The end that sent it.
        from: Side,
        /// Its bytes, those of the length first.
        octets: Vec<u8>,
    },
    /// The connection was closed.
    Down,
}

/// An event of a connection, with its packet and its time.
#[derive(Drop)]
pub struct TimedEvent {
    /// The number of the packet.
    pub packet: u64,
    /// The latest time at which a packet of the connection up to this one was captured, in milliseconds since 1970. It
    /// is never below the time of an earlier event.
    pub time: u64,
    /// The event.
    pub event: Event,
}

/// The state of a connection: not established yet, with the packet of the last FIN or reset before; established, with
/// the end that sent a Separate, if one did; or closed.
#[derive(Clone, Copy)]
pub(crate) enum EmitterState {
    Waiting(Option<u64>),
    Running(Option<Side>),
    Over,
}

impl EmitterState {
    // Establishes the connection, if it is not yet: a packet acknowledges the SYN of the passive end, or the first
    // message is complete.
    #[tactic(auto, using(crate::proofs::Timing::keeps_none, crate::proofs::Timing::keeps_one, crate::proofs::Timing::keeps_both))]
    pub(crate) fn come_up(
        &mut self,
        packet: u64,
        time: u64,
        emitted: &mut Vec<TimedEvent>,
    ) -> Result<(), AllocError>
        ensures emitted { OnOk result (ProcessesInput (comes_up self.old packet) emitted.old.items self.new emitted.new.items) }
        ensures times { OnOk result (KeepsTimes packet time emitted.old.items emitted.new.items) }
    {
        let EmitterState::Waiting(early) = *self else {
            return Ok(());
        };
        emitted.push(TimedEvent {
            packet,
            time,
            event: Event::Up,
        })?;
        if early != Some(packet) {
            *self = EmitterState::Running(None);
            return Ok(());
        }
        emitted.push(TimedEvent {
            packet,
            time,
            event: Event::Down,
        })?;
        *self = EmitterState::Over;
        Ok(())
    }

    // Closes the connection, if it is established: an end closes its stream at a packet, or resets the connection.
    #[tactic(auto, using(crate::proofs::Timing::keeps_none, crate::proofs::Timing::keeps_one))]
    pub(crate) fn go_down(
        &mut self,
        packet: u64,
        time: u64,
        emitted: &mut Vec<TimedEvent>,
    ) -> Result<(), AllocError>
        ensures emitted { OnOk result (ProcessesInput (closes_down self.old packet) emitted.old.items self.new emitted.new.items) }
        ensures times { OnOk result (KeepsTimes packet time emitted.old.items emitted.new.items) }
    {
        match *self {
            EmitterState::Waiting(_) => {
                *self = EmitterState::Waiting(Some(packet));
                Ok(())
            }
            EmitterState::Running(_) => {
                emitted.push(TimedEvent {
                    packet,
                    time,
                    event: Event::Down,
                })?;
                *self = EmitterState::Over;
                Ok(())
            }
            EmitterState::Over => Ok(()),
        }
    }

    // Emits a message that is complete at a packet. Skips messages that cross a Separate.
    pub(crate) fn say(
        &mut self,
        packet: u64,
        time: u64,
        from: Side,
        octets: Vec<u8>,
        emitted: &mut Vec<TimedEvent>,
    ) -> Result<(), AllocError>
        ensures emitted { OnOk result (ProcessesInput (says_first self.old packet from octets.items) emitted.old.items self.new emitted.new.items) }
        ensures times { OnOk result (KeepsTimes packet time emitted.old.items emitted.new.items) }
    {
        self.come_up(packet, time, emitted)?;
        self.say_up(packet, time, from, octets, emitted)
    }

    // Emits a message of an established connection.
    #[tactic(auto, using(crate::proofs::Timing::keeps_none, crate::proofs::Timing::keeps_one))]
    fn say_up(
        &mut self,
        packet: u64,
        time: u64,
        from: Side,
        octets: Vec<u8>,
        emitted: &mut Vec<TimedEvent>,
    ) -> Result<(), AllocError>
        ensures emitted { OnOk result (ProcessesInput (says self.old packet from octets.items) emitted.old.items self.new emitted.new.items) }
        ensures times { OnOk result (KeepsTimes packet time emitted.old.items emitted.new.items) }
    {
        let EmitterState::Running(separated) = *self else {
            return Ok(());
        };
        if leaves_out(separated, from) {
            return Ok(());
        }
        let by = separated_by(separated, from, &octets);
        emitted.push(TimedEvent {
            packet,
            time,
            event: Event::Message { from, octets },
        })?;
        *self = EmitterState::Running(by);
        Ok(())
    }
}

// Returns true if an end's messages are skipped, because the other end sent a Separate.
fn leaves_out(separated: Option<Side>, from: Side) -> bool
    ensures { result ≡ is_left_out (option_map end_at separated) (end_at from) }
{
    match separated {
        Some(side) => side != from,
        None => false,
    }
}

// Returns the end that sent a Separate first, up to and including this message.
fn separated_by(separated: Option<Side>, from: Side, octets: &[u8]) -> Option<Side>
    ensures { result ≡ separated_side separated from (is_separate octets.now) }
{
    separated.or(separates(octets).then_some(from))
}

// Returns true if a message is a Separate.
fn separates(octets: &[u8]) -> bool
    ensures { result ≡ is_separate octets.now }
{
    octet_or_none(octets, 8) == 0 && octet_or_none(octets, 9) == 9
}

// Returns the byte at an index, or 0 if there is none.
fn octet_or_none(octets: &[u8], place: usize) -> u8
    ensures { result ≡ get_or octets.now place 0 }
{
    octets.get(place).copied().unwrap_or(0)
}
