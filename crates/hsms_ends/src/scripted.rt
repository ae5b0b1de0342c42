//! A link in memory that fails on purpose, for tests.

ghost use Rattle.std.specs.Prelude.{◌≡◌};
ghost use Rattle.hsms_ends.specs.ScriptedLink.{moment_at};

use crate::fault::LinkFault;
use crate::link::{Again, Got, Link};
use crate::peer::Peer;
use hsms_frame::{Sink, Store};
use std::marker::Model;

/// A peer and a clock in memory. `now` returns the times in order, then repeats the last one; without times it
/// returns 0. `wait` returns `Quiet` for a `None`, and reads the bytes of a `Some`, at most `piece` per call. It
/// skips an empty `Some`, and returns `Closed` once the list is used up. `send` writes at most `piece` bytes per
/// call, up to the capacity. Each `wait` and each `send` after the first `fuse` calls fails, and so does each `send`
/// at full capacity. A test can therefore let any call fail.
#[derive(Drop)]
pub struct Scripted {
    moments: Vec<u64>,
    asked: u64,
    peer: Peer,
    room: Store,
    piece: usize,
    fuse: u64,
    calls: u64,
    waits: u64,
    failures: u64,
    until: Option<u64>,
}

impl Model for Scripted {
    ghost use Rattle.std.specs.Prelude.{◌≡◌, ◌<◌, ◌≤◌, ◌^◌, ◌-◌};
    ghost use Rattle.hsms_ends.specs.ScriptedLink.{ScriptState};

    ghost Value = { ScriptState };

    ghost view = { λ s. record {
      moments = s.moments.items;
      asked = s.asked;
      given = s.peer.given;
      left = s.peer.left;
      taken = s.room.written;
      room = s.room.room;
      piece = s.piece;
      fuse = s.fuse;
      calls = s.calls;
      waits = s.waits;
      closes = s.peer.closes;
      closed = s.peer.closed;
      failures = s.failures;
      until = s.until;
    } };

    ghost invariant = { λ s. (0 < s.piece) × (s.room.piece ≡ s.piece) × (s.room.gives ≤ s.calls)
        × (s.room.fuse ≡ 2 ^ 64 - 1) };
}

impl Scripted {
    ghost use Rattle.std.specs.Prelude.{◌≡◌, ◌<◌, [], None, map, option_map, false};

    /// Creates a link with these times, waits and capacity. `piece` is at least 1.
    pub fn new(
        moments: Vec<u64>,
        waits: Vec<Option<Vec<u8>>>,
        room: Vec<u8>,
        piece: usize,
        fuse: u64,
    ) -> Scripted
        requires { 0 < piece }
        ensures { result ≡ record {
          moments = moments.items;
          asked = 0;
          given = [];
          left = map (option_map (λ v. v.items)) waits.items;
          taken = [];
          room = room.items;
          piece = piece;
          fuse = fuse;
          calls = 0;
          waits = 0;
          closes = 0;
          closed = false;
          failures = 0;
          until = None;
        } }
    {
        Scripted {
            moments,
            asked: 0,
            peer: Peer::new(waits),
            room: Store::new(room, piece, u64::MAX),
            piece,
            fuse,
            calls: 0,
            waits: 0,
            failures: 0,
            until: None,
        }
    }

    /// Returns the bytes that were sent so far.
    pub fn taken(&self) -> &[u8]
        ensures { result.now ≡ self.now.taken }
    {
        self.room.written()
    }

    /// Returns the time until which the last `wait` was to wait.
    pub fn until(&self) -> Option<u64>
        ensures { result ≡ self.now.until }
    {
        self.until
    }
}

impl Link for Scripted {
    ghost use Rattle.std.specs.Prelude.{◌≡◌, ◌<◌, ◌≤◌, ◌⊎◌, ◌↔◌, length, min, drop, IsErr, IfOk, OnErr};
    ghost use Rattle.hsms_frame.specs.CallCounts.{next_count};
    ghost use Rattle.hsms_ends.specs.Link.{Asks, Waits, Sends};
    ghost use Rattle.hsms_ends.specs.ScriptedLink.{recorded_of, moment_at, pass_over, Answers};

    ghost link_state = { recorded_of };

    fn now(&mut self) -> u64
        ensures asks { Asks (recorded_of self.old) (recorded_of self.new) result }
        // Beyond what each link ensures: which time it is.
        ensures moment { result ≡ moment_at self.old.moments self.old.asked }
        ensures same { self.new ≡ record self.old { asked = next_count self.old.asked } }
    {
        let moment = moment_of(&self.moments, self.asked);
        self.asked = self.asked.saturating_add(1);
        moment
    }

    fn wait(&mut self, until: Option<u64>, into: &mut [u8]) -> Result<Got, LinkFault>
        requires { 0 < length into.old }
        ensures waits { Waits (recorded_of self.old) (recorded_of self.new) into.new result }
        // Beyond what each link ensures: when it fails, and what it returns.
        ensures fails { IsErr result ↔ (self.old.fuse ≤ self.old.calls) }
        ensures answers { IfOk result
            (λ got. Answers (pass_over self.old.left) self.old.piece into.new got self.new.left) }
        ensures left { OnErr result (self.new.left ≡ self.old.left) }
        ensures until { self.new.until ≡ until }
        ensures same { (self.new.moments ≡ self.old.moments) × (self.new.asked ≡ self.old.asked)
            × (self.new.room ≡ self.old.room) × (self.new.piece ≡ self.old.piece) × (self.new.fuse ≡ self.old.fuse)
            × (self.new.calls ≡ next_count self.old.calls) }
    {
        self.until = until;
        let is_spent = self.calls >= self.fuse;
        self.calls = self.calls.saturating_add(1);
        if is_spent {
            self.failures = self.failures.saturating_add(1);
            return Err(LinkFault);
        }
        self.waits = self.waits.saturating_add(1);
        Ok(self.peer.answer(into, self.piece))
    }

    fn send(&mut self, octets: &[u8]) -> Result<usize, LinkFault>
        ensures bound { IfOk result (λ n. n ≤ length octets.now) }
        ensures some { IfOk result (λ n. 0 < length octets.now → 0 < n) }
        ensures sent { Sends (recorded_of self.old) (recorded_of self.new) octets.now result }
        // Beyond what each link ensures: when it fails, that it writes as much as it may, and which capacity remains.
        ensures fails { IsErr result ↔ ((self.old.fuse ≤ self.old.calls) ⊎ (length self.old.room ≡ 0)) }
        ensures count { IfOk result (λ n. n ≡ min (min (length octets.now) (length self.old.room)) self.old.piece) }
        ensures room { IfOk result (λ n. self.new.room ≡ drop n self.old.room) }
        ensures room_stays { OnErr result (self.new.room ≡ self.old.room) }
        ensures same { (self.new.moments ≡ self.old.moments) × (self.new.asked ≡ self.old.asked)
            × (self.new.left ≡ self.old.left) × (self.new.piece ≡ self.old.piece) × (self.new.fuse ≡ self.old.fuse)
            × (self.new.calls ≡ next_count self.old.calls) × (self.new.until ≡ self.old.until) }
    {
        let is_spent = self.calls >= self.fuse;
        self.calls = self.calls.saturating_add(1);
        if is_spent {
            self.failures = self.failures.saturating_add(1);
            return Err(LinkFault);
        }
        match self.room.give(octets) {
            Ok(count) => Ok(count),
            Err(_) => {
                self.failures = self.failures.saturating_add(1);
                Err(LinkFault)
            }
        }
    }
}

/// Reconnects as often as it is called, to the same peer. The next connection continues with the remaining waits.
impl Again for Scripted {
    fn again(&mut self) -> bool {
        true
    }
}

/// Returns the time that call k of `now` returns.
fn moment_of(moments: &[u64], k: u64) -> u64
    ensures { result ≡ moment_at moments.now k }
{
    let last = moments.len().saturating_sub(1);
    moments
        .get(k.min(last as u64) as usize)
        .copied()
        .unwrap_or(0)
}
