//! The next message of an input that is read ahead.

ghost use Rattle.std.specs.Prelude.{◌≡◌, ◌<◌, ◌++◌, ℕ, [], Ok, true, false, is_some, length, if◌then◌else◌, IfOk, IfErr, IfSome, OnErr};
ghost use Rattle.hsms_frame.specs.CallCounts.{next_count};
ghost use Rattle.hsms_frame.specs.ReadAhead.{ReadsMore};
ghost use Rattle.hsms_frame.specs.Io.{IfRecorded, IsAtEnd, Stays};
ghost use Rattle.hsms_frame.specs.Framing.{IsFrontOf};
ghost use Rattle.cli_show.specs.InnerReadAhead.{EndsAs, FindsNext, IsUnread, found_of, is_open};
ghost use Rattle.cli_show.specs.InnerShowErrors.{failures_after};

use hsms_frame::{Ahead, AheadFault, FrameFault, Header, ReadFault, Source, front};
use secs_text::Block;

/// Returns the header and the text size of the complete message at the start of the bytes. Returns `None` if the
/// message is incomplete or invalid.
#[inline(always)]
pub fn whole_front(octets: &[u8], max: u32) -> Option<(Header, usize)>
    ensures { IfSome result (λ message. IsFrontOf max octets.now message.0 message.1) }
{
    match front(octets, max) {
        Ok(found) => found,
        Err(_) => None,
    }
}

/// Returns the header of the next message, and the size of its text in bytes. Returns `None` at the end of the input.
/// The complete message is then at the start of what was read ahead. Reads more only if it was not yet.
#[inline(never)]
pub fn next_message<R: Source>(
    source: &mut R,
    ahead: &mut Ahead,
    held: &Block,
    max: u32,
) -> Result<Option<(Header, usize)>, ReadFault>
    requires { held.now ≡ [] }
    ensures message { IfRecorded (R.state source.old).left
        (λ rest. FindsNext max (ahead.old ++ rest) result ahead.new (R.state source.new).left) }
    ensures whole { IfOk result (λ found. IfSome found (λ message. IsFrontOf max ahead.new message.0 message.1)) }
    ensures end { IfOk result (λ found. (R.state source.new).ends
        ≡ (if is_some found then (R.state source.old).ends else next_count (R.state source.old).ends)) }
    ensures reads { (R.state source.new).failures ≡ failures_after result (R.state source.old).failures }
{
    let mut found = front(ahead.as_slice(), max);
    while is_to_be_read(&found) {
        if !read_more(ahead, source, held)? {
            return at_end(ahead.as_slice());
        }
        found = front(ahead.as_slice(), max);
    }
    found_result(found)
}

/// Reads and appends more bytes. Returns false only at the end of the input. The read may wait, so no lines are
/// buffered then.
pub fn read_more<R: Source>(
    ahead: &mut Ahead,
    source: &mut R,
    held: &Block,
) -> Result<bool, ReadFault>
    requires { held.now ≡ [] }
    ensures ok { IfOk result (λ is_more. IfRecorded (R.state source.old).left
        (λ input. ReadsMore ahead.old input ahead.new (R.state source.new).left)) }
    ensures more { result ≡ Ok true → length ahead.old < length ahead.new }
    ensures none { result ≡ Ok false → (ahead.new ≡ ahead.old) × IsAtEnd (R.state source.old).left }
    ensures end { IfOk result (λ is_more. (R.state source.new).ends
        ≡ (if is_more then (R.state source.old).ends else next_count (R.state source.old).ends)) }
    ensures err { OnErr result (Stays (R.state source.old).left (R.state source.new).left) }
    ensures fault { IfErr result IsUnread }
    ensures reads { (R.state source.new).failures ≡ failures_after result (R.state source.old).failures }
{
    match ahead.read_more(source) {
        Ok(is_more) => Ok(is_more),
        Err(AheadFault::Read) => Err(ReadFault::Read),
        Err(AheadFault::Memory) => Err(ReadFault::Memory),
    }
}

// Returns true if neither a message nor an error was found.
#[inline(always)]
fn is_to_be_read(found: &Result<Option<(Header, usize)>, FrameFault>) -> bool
    ensures { result ≡ is_open found.now }
{
    match found {
        Ok(found) => found.is_none(),
        Err(_) => false,
    }
}

// Returns the result at the end of the input.
fn at_end(octets: &[u8]) -> Result<Option<(Header, usize)>, ReadFault>
    ensures ends { EndsAs octets.now result }
    ensures reads { (n : ℕ) → failures_after result n ≡ n }
{
    if octets.is_empty() {
        return Ok(None);
    }
    Err(ReadFault::CutOff)
}

#[inline(always)]
fn found_result(
    found: Result<Option<(Header, usize)>, FrameFault>,
) -> Result<Option<(Header, usize)>, ReadFault>
    ensures { result ≡ found_of found }
{
    match found {
        Ok(found) => Ok(found),
        Err(FrameFault::TooShort { length }) => Err(ReadFault::TooShort { length }),
        Err(FrameFault::TooLong { length, header }) => Err(ReadFault::TooLong { length, header }),
        Err(FrameFault::Memory) => Err(ReadFault::Memory),
    }
}
