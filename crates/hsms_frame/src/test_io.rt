//! Sources and sinks in memory that fail on purpose, for tests.

ghost use Rattle.std.specs.Prelude.{◌≡◌, ◌<◌, ◌≤◌, ◌⊎◌, ◌↔◌, [], Some, drop, take, length, min, IsErr, IfOk, OnErr};
ghost use Rattle.hsms_frame.specs.Io.{Takes, IsAtEnd, Stays, Grows, CountsPull, CountsGive};
ghost use Rattle.hsms_frame.specs.TestIo.{feed_of, source_of, sink_of};

use crate::call_counts::Tally;
use crate::io::{Failed, Sink, Source};
use crate::prefix::copy_front;
use std::marker::Model;

/// A source in memory that returns at most `piece` bytes a call. Each call after the first `fuse` fails, so a test can
/// choose which read fails.
#[derive(Drop)]
pub struct Feed {
    octets: Vec<u8>,
    place: usize,
    piece: usize,
    fuse: u64,
    tally: Tally,
}

impl Model for Feed {
    ghost use Rattle.std.specs.Prelude.{◌<◌, ◌≤◌, drop, vec_len};
    ghost use Rattle.hsms_frame.specs.TestIo.{FeedState};

    ghost Value = { FeedState };

    ghost view = { λ f. record {
      left = drop f.place f.octets.items;
      piece = f.piece;
      fuse = f.fuse;
      pulls = f.tally.calls;
      empty_pulls = f.tally.empty;
      ends = f.tally.ends;
      failures = f.tally.failures;
    } };

    ghost invariant = { λ f. (f.place ≤ vec_len f.octets) × (0 < f.piece) };
}

impl Feed {
    /// Creates a source of these bytes. `piece` is at least 1.
    pub fn new(octets: Vec<u8>, piece: usize, fuse: u64) -> Feed
        requires { 0 < piece }
        ensures { result ≡ feed_of octets.items piece fuse }
    {
        Feed {
            octets,
            place: 0,
            piece,
            fuse,
            tally: Tally::default(),
        }
    }

    /// Returns the bytes that are left to read.
    pub fn left(&self) -> &[u8]
        ensures { result.now ≡ self.now.left }
    {
        &self.octets[self.place..]
    }
}

impl Source for Feed {
    ghost state = { source_of };

    fn pull(&mut self, into: &mut [u8]) -> Result<usize, Failed>
        ensures bound { IfOk result (λ n. n ≤ length into.new) }
        ensures octets { IfOk result (λ n. Takes (Some self.old.left) (Some self.new.left) n into.new) }
        ensures end { IfOk result (λ n. n ≡ 0 → 0 < length into.new → IsAtEnd (Some self.old.left)) }
        ensures none_lost { OnErr result (Stays (Some self.old.left) (Some self.new.left)) }
        ensures counts { CountsPull (length into.old) result (source_of self.old) (source_of self.new) }

        // In addition to the contract of each source: when it fails, and that it moves as many bytes as it may.
        ensures fails { IsErr result ↔ (self.old.fuse ≤ self.old.pulls) }
        ensures count { IfOk result (λ n. n ≡ min (min (length self.old.left) (length into.old)) self.old.piece) }
        ensures same { (self.new.piece ≡ self.old.piece) × (self.new.fuse ≡ self.old.fuse) }
    {
        let is_spent = self.tally.calls >= self.fuse;
        self.tally.count(into.is_empty());
        if is_spent {
            return Err(self.tally.fail());
        }
        let count = copy_front(&self.octets[self.place..], into, self.piece);
        self.tally.end(into.len(), count);
        self.place += count;
        Ok(count)
    }
}

/// A sink that overwrites memory, at most `piece` bytes a call. Each call after the first `fuse` fails, and each call
/// after the memory is full. So a test can choose which write fails.
#[derive(Drop)]
pub struct Store {
    room: Vec<u8>,
    place: usize,
    piece: usize,
    fuse: u64,
    tally: Tally,
}

impl Model for Store {
    ghost use Rattle.std.specs.Prelude.{◌<◌, ◌≤◌, drop, take, vec_len};
    ghost use Rattle.hsms_frame.specs.TestIo.{StoreState};

    ghost Value = { StoreState };

    ghost view = { λ s. record {
      written = take s.place s.room.items;
      room = drop s.place s.room.items;
      piece = s.piece;
      fuse = s.fuse;
      gives = s.tally.calls;
      failures = s.tally.failures;
    } };

    ghost invariant = { λ s. (s.place ≤ vec_len s.room) × (0 < s.piece) };
}

impl Store {
    /// Creates a sink that overwrites this memory, from its start up to its length. `piece` is at least 1.
    pub fn new(room: Vec<u8>, piece: usize, fuse: u64) -> Store
        requires { 0 < piece }
        ensures { result
            ≡ record { written = []; room = room.items; piece = piece; fuse = fuse; gives = 0; failures = 0 } }
    {
        Store {
            room,
            place: 0,
            piece,
            fuse,
            tally: Tally::default(),
        }
    }

    /// Returns the bytes that were written so far.
    pub fn written(&self) -> &[u8]
        ensures { result.now ≡ self.now.written }
    {
        &self.room[..self.place]
    }
}

impl Sink for Store {
    ghost state = { sink_of };

    fn give(&mut self, from: &[u8]) -> Result<usize, Failed>
        ensures bound { IfOk result (λ n. n ≤ length from.now) }
        ensures some { IfOk result (λ n. 0 < length from.now → 0 < n) }
        ensures octets { IfOk result (λ n. Grows (Some self.old.written) (Some self.new.written) (take n from.now)) }
        ensures none_written { OnErr result (Stays (Some self.old.written) (Some self.new.written)) }
        ensures counts { CountsGive result (sink_of self.old) (sink_of self.new) }

        // In addition to the contract of each sink: when it fails, that it moves as many bytes as it may, and which
        // memory is left.
        ensures fails { IsErr result ↔ ((self.old.fuse ≤ self.old.gives) ⊎ (length self.old.room ≡ 0)) }
        ensures count { IfOk result (λ n. n ≡ min (min (length from.now) (length self.old.room)) self.old.piece) }
        ensures room { IfOk result (λ n. self.new.room ≡ drop n self.old.room) }
        ensures room_stays { OnErr result (self.new.room ≡ self.old.room) }
        ensures same { (self.new.piece ≡ self.old.piece) × (self.new.fuse ≡ self.old.fuse) }
    {
        let is_spent = self.tally.calls >= self.fuse;
        self.tally.count(from.is_empty());
        if is_spent || self.place == self.room.len() {
            return Err(self.tally.fail());
        }
        let count = copy_front(from, &mut self.room[self.place..], self.piece);
        self.place += count;
        Ok(count)
    }
}
