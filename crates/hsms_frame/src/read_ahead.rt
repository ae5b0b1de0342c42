//! A buffer of bytes that were read ahead from a source.

ghost use Rattle.std.specs.Prelude.{◌≡◌, ◌≤◌, ◌<◌, ◌+◌, ◌-◌, Ok, true, false, drop, take, length, vec_len, nat_lt, if◌then◌else◌, IfOk, OnOk, OnErr};
ghost use Rattle.std.specs.List.{slice_range};
ghost use Rattle.hsms_frame.specs.ReadAhead.{ReadsMore, ends_after_more, failures_after_more, most_ahead};
ghost use Rattle.hsms_frame.specs.CallCounts.{next_count, count_failure};
ghost use Rattle.hsms_frame.specs.Io.{IfRecorded, IsAtEnd, Stays};

use crate::fault::AheadFault;
use crate::io::{Failed, Source};
use std::alloc::{AllocError, Global};
use std::marker::Model;

// The minimum number of bytes of capacity after the buffered bytes, before a read.
const BLOCK: usize = 65536;

/// Bytes of a source that were read and not yet passed. Contracts see them as a list.
///
/// A user of the bytes at the front reads them in the buffer, and passes them. Only a read moves the remaining bytes to
/// the front. The capacity is 131,072 bytes, or 65,536 more than the largest number of bytes that were buffered before
/// a read.
#[derive(Drop)]
pub struct Ahead {
    octets: Vec<u8>,
    place: usize,
    end: usize,
}

impl Model for Ahead {
    ghost use Rattle.std.specs.Prelude.{◌≤◌, List, ℕ, vec_len};
    ghost use Rattle.std.specs.List.{slice_range};

    ghost Value = { List ℕ };

    ghost view = { λ a. slice_range a.octets.items a.place a.end };

    ghost invariant = { λ a. (a.place ≤ a.end) × (a.end ≤ vec_len a.octets) × (131072 ≤ vec_len a.octets) };
}

impl Ahead {
    ghost use Rattle.std.specs.Prelude.{[]};

    /// Creates an empty buffer. Allocates memory for 131,072 bytes.
    pub fn new(alloc: Global) -> Result<Ahead, AllocError>
        ensures { IfOk result (λ ahead. ahead ≡ []) }
    {
        let octets = vec![in alloc; 0u8; 2 * BLOCK]?;
        Ok(Ahead {
            octets,
            place: 0,
            end: 0,
        })
    }

    /// Returns the buffered bytes.
    #[inline(always)]
    pub fn as_slice(&self) -> &[u8]
        ensures { result.now ≡ self.now }
    {
        &self.octets[self.place..self.end]
    }

    /// Removes bytes from the front.
    #[inline(always)]
    pub fn pass(&mut self, count: usize)
        requires { count ≤ length self.old }
        ensures { self.new ≡ drop count self.old }
    {
        self.place += count;
    }

    /// Reads more bytes after the buffered ones. Returns whether there were any: none only at the end of the input. The
    /// read may wait.
    ///
    /// # Errors
    ///
    /// Returns `Memory` if an allocation fails, before anything is read. Returns `Read` if the read fails. No byte is
    /// lost, and the buffered bytes stay.
    pub fn read_more<R: Source>(&mut self, source: &mut R) -> Result<bool, AheadFault>
        ensures ok { IfOk result (λ is_more. IfRecorded (R.state source.old).left
            (λ input. ReadsMore self.old input self.new (R.state source.new).left)) }
        ensures more { result ≡ Ok true → length self.old < length self.new }
        ensures none { result ≡ Ok false → (self.new ≡ self.old) × IsAtEnd (R.state source.old).left }
        ensures bound { length self.new ≤ most_ahead (length self.old) }
        ensures kept { OnErr result (self.new ≡ self.old) }
        ensures err { OnErr result (Stays (R.state source.old).left (R.state source.new).left) }
        ensures ends { (R.state source.new).ends ≡ ends_after_more result (R.state source.old).ends }
        ensures failures { (R.state source.new).failures ≡ failures_after_more result (R.state source.old).failures }
    {
        self.end = move_to_front(&mut self.octets, self.place, self.end);
        self.place = 0;
        make_room(&mut self.octets, self.end)?;
        let most = (self.end + BLOCK).max(2 * BLOCK);
        let count = read_after(&mut self.octets, self.end, most, source)?;
        self.end += count;
        Ok(count > 0)
    }
}

// Moves a part to the front. Returns the index at which it ends there.
fn move_to_front(octets: &mut [u8], place: usize, end: usize) -> usize
    requires { (place ≤ end) × (end ≤ length octets.old) }
    ensures length { length octets.new ≡ length octets.old }
    ensures end { result ≡ end - place }
    ensures front { take result octets.new ≡ slice_range octets.old place end }
{
    if place > 0 {
        octets.copy_within(place..end, 0);
    }
    end - place
}

// Makes capacity after the bytes.
fn make_room(octets: &mut Vec<u8>, end: usize) -> Result<(), AllocError>
    requires { end ≤ vec_len octets.old }
    ensures front { take end octets.new.items ≡ take end octets.old.items }
    ensures longer { vec_len octets.old ≤ vec_len octets.new }
    ensures room { OnOk result (end + 65536 ≤ vec_len octets.new) }
{
    if octets.len() - end < BLOCK {
        octets.resize(end + BLOCK, 0)?;
    }
    Ok(())
}

// Reads bytes after the buffered ones, up to an index. Returns how many it read: none only at the end of the input.
fn read_after<R: Source>(
    octets: &mut Vec<u8>,
    end: usize,
    most: usize,
    source: &mut R,
) -> Result<usize, Failed>
    requires { (end < most) × (most ≤ vec_len octets.old) }
    ensures ok { IfOk result (λ count. IfRecorded (R.state source.old).left
        (λ input. ReadsMore (take end octets.old.items) input (take (end + count) octets.new.items) (R.state source.new).left)) }
    ensures within { IfOk result (λ count. end + count ≤ most) }
    ensures none { IfOk result (λ count. count ≡ 0 → IsAtEnd (R.state source.old).left) }
    ensures front { take end octets.new.items ≡ take end octets.old.items }
    ensures length { vec_len octets.new ≡ vec_len octets.old }
    ensures err { OnErr result (Stays (R.state source.old).left (R.state source.new).left) }
    ensures ends { IfOk result (λ count. (R.state source.new).ends
        ≡ (if nat_lt 0 count then (R.state source.old).ends else next_count (R.state source.old).ends)) }
    ensures ends_stay { OnErr result ((R.state source.new).ends ≡ (R.state source.old).ends) }
    ensures failures { (R.state source.new).failures ≡ count_failure result (R.state source.old).failures }
{
    source.pull(&mut octets[end..most])
}
