//! A reader of a capture file from a source, one packet at a time.

ghost use Rattle.std.specs.Prelude.{◌≡◌, ◌≤◌, ◌<◌, Ok, true, false, length, IfErr, IfOk, OnErr, drop, take, ◌+◌};
ghost use Rattle.hsms_frame.specs.ReadAhead.{ReadsMore, ends_after_more};
ghost use Rattle.hsms_frame.specs.Io.{IfRecorded, IsAtEnd, Stays};
ghost use Rattle.capture_pcap.specs.File.{HasParts};
ghost use Rattle.capture_pcap.specs.BlockReader.{ends_after_open, failures_after, greatest_ahead, Reading, CountsOn, OpensAs, PassesOn, StepIsWithin, StepsAs, TakesHeader, TakesOn, ends_after_step};
ghost use Rattle.capture_pcap.specs.InnerBlockReader.{EndsWith, FindsFront, FindsOpening, IsOfDevice, OpensFor, ReadsFor, ends_after_find, front_reported, is_more, is_unopened, opening_reported, step_of};

use crate::block_reader::{Format, Opening, Reader, format_of};
use crate::fault::{CaptureFault, FileFault};
use crate::next_block::{Front, Record};
use hsms_frame::{Ahead, Source};
use std::alloc::Global;
use std::marker::Model;

/// What one step in a file finds.
#[derive(Clone, Copy, Debug)]
pub enum Step {
    /// A packet, with its number, counted from 1. Its record's bytes are in [`Packets::octets`].
    Packet(u64, Record),
    /// A record or block that is not a packet.
    Passed,
    /// The end of the file.
    End,
}

/// A capture file that is read in blocks. Contracts see the reader's state, the bytes of the record or block that was
/// passed last, and the bytes that were read ahead after it. These are at most the bytes of one record or block, and
/// 65,536 more, so the memory in use does not grow with the file.
#[derive(Drop)]
pub struct Packets {
    reader: Reader,
    ahead: Ahead,
    // The bytes of what was passed last stay before those that were read ahead, until the next step.
    last: usize,
}

impl Model for Packets {
    ghost Value = { Reading };

    ghost view = { λ p. record { state = p.reader; last = take p.last p.ahead; ahead = drop p.last p.ahead } };

    ghost invariant = { λ p. (p.last ≤ length p.ahead) × (length p.ahead ≤ greatest_ahead) };
}

impl Packets {
    /// Opens a file: reads until its format and its header are complete. If that fails, the bytes that were read are
    /// lost.
    pub fn open<R: Source>(alloc: Global, source: &mut R) -> Result<Packets, FileFault>
        ensures opened { IfRecorded (R.state source.old).left (λ input. OpensAs input result (R.state source.new).left) }
        ensures count { IfOk result (λ packets. packets.state.packets ≡ 0) }
        ensures takes { IfRecorded (R.state source.old).left (λ input.
            IfOk result (TakesHeader input (R.state source.new).left)) }
        ensures ends { (R.state source.new).ends ≡ ends_after_open result (R.state source.old).ends }
        ensures failures { (R.state source.new).failures ≡ failures_after result (R.state source.old).failures }
    {
        let mut ahead = Ahead::new(alloc)?;
        let (format, size) = opening(&mut ahead, source)?;
        ahead.pass(size);
        Ok(Packets {
            reader: Reader::new(alloc, format, size),
            ahead,
            last: 0,
        })
    }

    /// Returns the reader, which counts the packets and bytes of the file that were passed.
    pub fn reader(&self) -> &Reader
        ensures { result.now ≡ self.now.state }
    {
        &self.reader
    }

    /// Returns the bytes of the record or block that was passed last, if the last step returned it.
    pub fn octets(&self) -> &[u8]
        ensures { result.now ≡ self.now.last }
    {
        let (last, _) = self.ahead.as_slice().split_at(self.last);
        last
    }

    /// Passes the next record or block of the file, and returns it. Reads more only if it is incomplete.
    ///
    /// Successive steps, up to the end of the file, a cut or an error, return what `ReadsFile` states of all bytes of
    /// the source: each packet once, in order, with its number, and an error at its offset in the file. After an error,
    /// the next call returns the same error. After a failed read or a failed allocation nothing is lost.
    pub fn next<R: Source>(&mut self, source: &mut R) -> Result<Step, FileFault>
        ensures step { IfRecorded (R.state source.old).left (λ input. StepsAs self.old input result self.new (R.state source.new).left) }
        ensures there { IfOk result (StepIsWithin (length self.new.last)) }
        ensures takes { IfRecorded (R.state source.old).left (λ input.
            IfOk result (TakesOn self.old input self.new (R.state source.new).left)) }
        ensures onward { IfOk result (λ step. PassesOn step self.old.state.place self.new.state.place) }
        ensures counts { IfOk result (λ step. CountsOn step self.old.state.packets self.new.state.packets) }
        ensures err { OnErr result (self.new.state ≡ self.old.state) }
        ensures bound { length self.new.last + length self.new.ahead ≤ greatest_ahead }
        ensures ends { (R.state source.new).ends ≡ ends_after_step result (R.state source.old).ends }
        ensures failures { (R.state source.new).failures ≡ failures_after result (R.state source.old).failures }
    {
        self.ahead.pass(self.last);
        self.last = 0;
        let Some(front) = next_front(&self.reader, &mut self.ahead, source)? else {
            return Ok(Step::End);
        };
        let Ok(size) = self.reader.pass(front) else {
            return Err(FileFault::Memory);
        };
        self.last = size;
        Ok(reported_step(self.reader.packets(), front))
    }
}

// Returns the next complete record or block of the bytes that were read ahead. Returns `None` at the end of the input.
fn next_front<R: Source>(
    reader: &Reader,
    ahead: &mut Ahead,
    source: &mut R,
) -> Result<Option<Front>, FileFault>
    requires { length ahead.old ≤ greatest_ahead }
    ensures read { IfRecorded (R.state source.old).left
        (λ input. ReadsFor result ahead.old input ahead.new (R.state source.new).left) }
    ensures found { FindsFront reader.now ahead.new result }
    ensures bound { length ahead.new ≤ greatest_ahead }
    ensures ends { (R.state source.new).ends ≡ ends_after_find result (R.state source.old).ends }
    ensures failures { (R.state source.new).failures ≡ failures_after result (R.state source.old).failures }
{
    let mut found = reader.front(ahead.as_slice());
    while is_to_be_read(&found) {
        if !read_more(ahead, source)? {
            return at_end(ahead.as_slice());
        }
        found = reader.front(ahead.as_slice());
    }
    reported_front(reader.place(), found)
}

// Returns true if neither a record or block nor an error was found.
#[inline(always)]
fn is_to_be_read(found: &Result<Front, CaptureFault>) -> bool
    ensures { result ≡ is_more found.now }
{
    matches!(found, Ok(Front::More))
}

// Returns the result at the end of the input.
fn at_end(octets: &[u8]) -> Result<Option<Front>, FileFault>
    ensures { EndsWith octets.now result }
{
    if octets.is_empty() {
        return Ok(None);
    }
    Err(FileFault::CutOff)
}

#[inline(always)]
fn reported_front(
    place: u64,
    found: Result<Front, CaptureFault>,
) -> Result<Option<Front>, FileFault>
    ensures { result ≡ front_reported place found }
{
    match found {
        Ok(front) => Ok(Some(front)),
        Err(fault) => Err(FileFault::Capture { place, fault }),
    }
}

#[inline(always)]
fn reported_step(number: u64, front: Front) -> Step
    ensures { result ≡ step_of number front }
{
    match front {
        Front::Packet(record) => Step::Packet(number, record),
        Front::More | Front::Begun(..) | Front::Described(..) | Front::Passed(..) => Step::Passed,
    }
}

// Reads the format of a file and the size of its header in bytes, once the header was read ahead.
fn opening<R: Source>(ahead: &mut Ahead, source: &mut R) -> Result<(Format, usize), FileFault>
    requires { length ahead.old ≤ greatest_ahead }
    ensures read { IfRecorded (R.state source.old).left
        (λ input. OpensFor result ahead.old input ahead.new (R.state source.new).left) }
    ensures found { FindsOpening ahead.new result }
    ensures parts { IfOk result (λ opened. HasParts opened.0) }
    ensures bound { length ahead.new ≤ greatest_ahead }
    ensures ends { (R.state source.new).ends ≡ ends_after_open result (R.state source.old).ends }
    ensures failures { (R.state source.new).failures ≡ failures_after result (R.state source.old).failures }
{
    let mut found = format_of(ahead.as_slice());
    while is_to_be_opened(&found) {
        if !read_more(ahead, source)? {
            return Err(FileFault::CutOff);
        }
        found = format_of(ahead.as_slice());
    }
    reported_opening(found)
}

// Reads and appends more bytes. Returns false only at the end of the input.
fn read_more<R: Source>(ahead: &mut Ahead, source: &mut R) -> Result<bool, FileFault>
    requires { length ahead.old < 16777232 }
    ensures ok { IfOk result (λ is_more. IfRecorded (R.state source.old).left
        (λ input. ReadsMore ahead.old input ahead.new (R.state source.new).left)) }
    ensures more { result ≡ Ok true → length ahead.old < length ahead.new }
    ensures none { result ≡ Ok false → (ahead.new ≡ ahead.old) × IsAtEnd (R.state source.old).left }
    ensures bound { length ahead.new ≤ greatest_ahead }
    ensures kept { OnErr result (ahead.new ≡ ahead.old) }
    ensures err { OnErr result (Stays (R.state source.old).left (R.state source.new).left) }
    ensures ends { (R.state source.new).ends ≡ ends_after_more result (R.state source.old).ends }
    ensures stop { IfErr result IsOfDevice }
    ensures failures { (R.state source.new).failures ≡ failures_after result (R.state source.old).failures }
{
    Ok(ahead.read_more(source)?)
}

// Returns true if neither a format nor an error was found.
fn is_to_be_opened(found: &Result<Opening, CaptureFault>) -> bool
    ensures { result ≡ is_unopened found.now }
{
    matches!(found, Ok(Opening::More))
}

fn reported_opening(found: Result<Opening, CaptureFault>) -> Result<(Format, usize), FileFault>
    ensures { result ≡ opening_reported found }
{
    match found {
        Ok(Opening::Opened(format, size)) => Ok((format, size)),
        Ok(Opening::More) => Err(FileFault::CutOff),
        Err(fault) => Err(FileFault::Capture { place: 0, fault }),
    }
}
