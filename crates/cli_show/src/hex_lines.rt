//! The lines of an input that is read ahead.

ghost use Rattle.std.specs.Prelude.{◌≡◌, ◌≤◌, ◌<◌, ◌++◌, [], IfOk, length, slice_index, take, if◌then◌else◌};
ghost use Rattle.hsms_frame.specs.CallCounts.{next_count};
ghost use Rattle.hsms_frame.specs.Io.{IfRecorded};
ghost use Rattle.hsms_log.specs.Lines.{HasNone};
ghost use Rattle.cli_show.specs.ShowErrors.{reads_after, writes_after};
ghost use Rattle.cli_show.specs.InnerShowErrors.{failures_after};
ghost use Rattle.cli_show.specs.InnerShowHex.{EndsAt, FindsEnd, FindsEndHolding, IsPlaced, is_open};

use crate::next_frame::read_more;
use crate::show_error::ShowError;
use cli_output::put_out;
use hsms_frame::{Ahead, ReadFault, Sink, Source};
use memchr::memchr;
use secs_text::Block;

/// Where a line ends in bytes.
#[derive(Clone, Copy)]
pub enum LineEnd {
    /// Its line feed is at this index.
    Feed(usize),
    /// They have no line feed.
    Open,
    /// They have no line feed within the maximum length of a line.
    TooFar,
}

/// Returns where the next line ends in what was read ahead. Returns `Open` only at the end of the input. Writes the
/// buffered lines before it reads more. A line has at most four times `max` and 64 bytes.
pub fn next_end<R: Source, W: Sink>(
    source: &mut R,
    sink: &mut W,
    ahead: &mut Ahead,
    held: &mut Block,
    max: u32,
) -> Result<LineEnd, ShowError>
    ensures end { IfRecorded (R.state source.old).left (λ rest. FindsEndHolding max (ahead.old ++ rest) result ahead.new
        (R.state source.new).left (W.state sink.old).written held.old (W.state sink.new).written held.new) }
    ensures placed { IfOk result (IsPlaced max ahead.new) }
    ensures ends { IfOk result (λ end. (R.state source.new).ends
        ≡ (if is_open end then next_count (R.state source.old).ends else (R.state source.old).ends)) }
    ensures reads { (R.state source.new).failures ≡ reads_after result (R.state source.old).failures }
    ensures writes { (W.state sink.new).failures ≡ writes_after result (W.state sink.old).failures }
{
    match end_in(ahead.as_slice(), 0, max) {
        LineEnd::Open => {
            put_out(sink, held)?;
            Ok(read_to_end(source, ahead, held, max)?)
        }
        LineEnd::Feed(place) => Ok(LineEnd::Feed(place)),
        LineEnd::TooFar => Ok(LineEnd::TooFar),
    }
}

// Reads more until the line ends. Does not check the earlier bytes again.
#[inline(never)]
fn read_to_end<R: Source>(
    source: &mut R,
    ahead: &mut Ahead,
    held: &Block,
    max: u32,
) -> Result<LineEnd, ReadFault>
    requires { held.now ≡ [] }
    ensures end { IfRecorded (R.state source.old).left
        (λ rest. FindsEnd max (ahead.old ++ rest) result ahead.new (R.state source.new).left) }
    ensures placed { IfOk result (IsPlaced max ahead.new) }
    ensures ends { IfOk result (λ end. (R.state source.new).ends
        ≡ (if is_open end then next_count (R.state source.old).ends else (R.state source.old).ends)) }
    ensures reads { (R.state source.new).failures ≡ failures_after result (R.state source.old).failures }
{
    let mut end = end_in(ahead.as_slice(), 0, max);
    while is_to_be_read(end) {
        let seen = ahead.as_slice().len();
        if !read_more(ahead, source, held)? {
            return Ok(LineEnd::Open);
        }
        end = end_in(ahead.as_slice(), seen, max);
    }
    Ok(end)
}

fn is_to_be_read(end: LineEnd) -> bool
    ensures { result ≡ is_open end }
{
    match end {
        LineEnd::Open => true,
        LineEnd::Feed(_) | LineEnd::TooFar => false,
    }
}

// Returns where a line ends in bytes, of which the first `seen` have no line feed.
#[inline(always)]
fn end_in(octets: &[u8], seen: usize, max: u32) -> LineEnd
    requires { seen ≤ length octets.now }
    ensures placed { IsPlaced max octets.now result }
    ensures end { HasNone 10 (take seen octets.now) → EndsAt max octets.now result }
{
    let place = place_of_feed(octets, seen);
    if place > 4 * max as usize + 64 {
        LineEnd::TooFar
    } else if place < octets.len() {
        LineEnd::Feed(place)
    } else {
        LineEnd::Open
    }
}

// Returns the index of the first line feed, or the end.
#[inline(always)]
fn place_of_feed(octets: &[u8], seen: usize) -> usize
    requires { seen ≤ length octets.now }
    ensures within { result ≤ length octets.now }
    ensures feed { result < length octets.now → slice_index octets.now result ≡ 10 }
    ensures none { HasNone 10 (take seen octets.now) → HasNone 10 (take result octets.now) }
{
    match memchr(b'\n', &octets[seen..]) {
        Some(place) => seen + place,
        None => octets.len(),
    }
}
