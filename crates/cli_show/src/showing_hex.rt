//! `hsms show --hex`: messages in lines of hexadecimal, as lines.

ghost use Rattle.std.specs.Prelude.{◌≡◌, ◌≤◌, ◌++◌, ℕ, [], Ok, true, IfOk, OnOk, if◌then◌else◌, option_map};
ghost use Rattle.hsms_frame.specs.CallCounts.{next_count};
ghost use Rattle.hsms_frame.specs.Io.{IfRecorded};
ghost use Rattle.cli_options.specs.Request.{is_bare};
ghost use Rattle.cli_show.specs.InnerReadAhead.{left_after};
ghost use Rattle.cli_show.specs.ShowErrors.{reads_after, writes_after};
ghost use Rattle.cli_show.specs.InnerShowErrors.{failures_after};
ghost use Rattle.cli_show.specs.ShowHex.{IsNotMessage, IsRefusedLine, ShowsHex, ShowsLine, ShowsOctets, octets_of_line};
ghost use Rattle.cli_show.specs.InnerShowHex.{AppendsShown, IsAllRead, ShowsNextLine};

use crate::hex_lines::{LineEnd, next_end};
use crate::hex_message::{message_of, octets_in};
use crate::next_frame::read_more;
use crate::show_error::ShowError;
use cli_options::Showing;
use cli_output::{append_line, put_out};
use hsms_frame::{Ahead, ReadFault, Sink, Source};
use secs_text::Block;
use std::alloc::{AllocError, Global};

/// Writes the line of each message of the input, in order, up to the end of the input or the first error. Each line of
/// the input is one message in hexadecimal digits of either case, or nothing.
///
/// A line ends with LF or CR LF, which the last one may lack. Spaces and tabs may be before, between and after its
/// bytes. With the form `BareLines`, lines are of header and text alone, without the four length bytes. `max` and
/// `depth` are as for [`show`](crate::show). A line has at most four times `max` and 64 bytes, and no more of the input
/// is buffered than a line and a block.
///
/// # Errors
///
/// - `NoHex`, if a line has no valid bytes. `NoMessage`, if its bytes are not exactly one message within `max`, or it is
///   too long. Both have the number of the line, counted from 1. The lines of the messages before are written.
/// - `Read`: `Read`, if a read failed in this call, or `Memory`. All messages whose lines were read completely are
///   shown after a failed read.
/// - `Write`, if a write failed in this call. A part of the next line may be written.
/// - `Endless`, if 4,294,967,295 lines are passed and the input continues.
pub fn show_hex<R: Source, W: Sink>(
    alloc: Global,
    source: &mut R,
    sink: &mut W,
    showing: Showing,
) -> Result<(), ShowError>
    requires { showing.depth ≤ 100 }
    ensures lines { IfRecorded (R.state source.old).left
        (λ input. ShowsHex (is_bare showing.form) showing.max showing.depth input result
        (R.state source.new).left (W.state sink.old).written (W.state sink.new).written) }
    // If the source does not record its bytes, its end was still found once.
    ensures end { OnOk result ((R.state source.new).ends ≡ next_count (R.state source.old).ends) }
    ensures reads { (R.state source.new).failures ≡ reads_after result (R.state source.old).failures }
    ensures writes { (W.state sink.new).failures ≡ writes_after result (W.state sink.old).failures }
{
    let mut ahead = Ahead::new(alloc)?;
    let mut held = Block::new(alloc)?;
    for passed in 0..u32::MAX {
        let number = passed + 1;
        if !show_next(alloc, source, sink, &mut ahead, &mut held, showing, number)? {
            return Ok(());
        }
    }
    put_out(sink, &mut held)?;
    if is_at_end(source, &mut ahead, &held)? {
        return Ok(());
    }
    Err(ShowError::Endless)
}

// Checks for the end of the input, after the maximum number of lines was passed.
fn is_at_end<R: Source>(source: &mut R, ahead: &mut Ahead, held: &Block) -> Result<bool, ReadFault>
    requires { held.now ≡ [] }
    ensures answer { IfRecorded (R.state source.old).left
        (λ rest. IsAllRead (ahead.old ++ rest) result (R.state source.new).left) }
    ensures end { result ≡ Ok true → (R.state source.new).ends ≡ next_count (R.state source.old).ends }
    ensures reads { (R.state source.new).failures ≡ failures_after result (R.state source.old).failures }
{
    if !ahead.as_slice().is_empty() {
        return Ok(false);
    }
    if read_more(ahead, source, held)? {
        return Ok(false);
    }
    Ok(true)
}

// Shows the next line, and returns whether one may follow it. What is shown is buffered, and written at the end of the
// input.
#[inline(always)]
fn show_next<R: Source, W: Sink>(
    alloc: Global,
    source: &mut R,
    sink: &mut W,
    ahead: &mut Ahead,
    held: &mut Block,
    showing: Showing,
    number: u32,
) -> Result<bool, ShowError>
    requires { showing.depth ≤ 100 }
    ensures line { IfRecorded (R.state source.old).left (λ rest. ShowsNextLine (is_bare showing.form) showing.max showing.depth number (ahead.old ++ rest)
        result (left_after result ahead.new (R.state source.new).left) (W.state sink.old).written held.old (W.state sink.new).written held.new) }
    ensures end { IfOk result (λ is_more. (R.state source.new).ends
        ≡ (if is_more then (R.state source.old).ends else next_count (R.state source.old).ends)) }
    ensures reads { (R.state source.new).failures ≡ reads_after result (R.state source.old).failures }
    ensures writes { (W.state sink.new).failures ≡ writes_after result (W.state sink.old).failures }
{
    match next_end(source, sink, ahead, held, showing.max)? {
        LineEnd::Feed(place) => {
            append_shown(
                alloc,
                sink,
                held,
                &ahead.as_slice()[..place],
                showing,
                number,
            )?;
            ahead.pass(place + 1);
            Ok(true)
        }
        LineEnd::Open => {
            append_shown(alloc, sink, held, ahead.as_slice(), showing, number)?;
            put_out(sink, held)?;
            Ok(false)
        }
        LineEnd::TooFar => {
            put_out(sink, held)?;
            Err(ShowError::NoMessage { line: number })
        }
    }
}

// Appends what is shown of a line to the buffer. If the line is invalid, the buffer is written.
fn append_shown<W: Sink>(
    alloc: Global,
    sink: &mut W,
    held: &mut Block,
    line: &[u8],
    showing: Showing,
    number: u32,
) -> Result<(), ShowError>
    requires { showing.depth ≤ 100 }
    ensures shown { AppendsShown (ShowsLine (is_bare showing.form) showing.max showing.depth line.now)
        (IsRefusedLine (is_bare showing.form) showing.max number line.now) result
        (W.state sink.old).written held.old (W.state sink.new).written held.new }
    ensures reads { (n : ℕ) → reads_after result n ≡ n }
    ensures writes { (W.state sink.new).failures ≡ writes_after result (W.state sink.old).failures }
{
    match octets_of_line(alloc, line) {
        Ok(Some(octets)) => append_octets(sink, held, &octets, showing, number),
        Ok(None) => {
            put_out(sink, held)?;
            Err(ShowError::NoHex { line: number })
        }
        Err(AllocError) => {
            put_out(sink, held)?;
            Err(ShowError::Read(ReadFault::Memory))
        }
    }
}

// Appends what is shown of the line's bytes to the buffer.
fn append_octets<W: Sink>(
    sink: &mut W,
    held: &mut Block,
    octets: &[u8],
    showing: Showing,
    number: u32,
) -> Result<(), ShowError>
    requires { showing.depth ≤ 100 }
    ensures shown { AppendsShown (ShowsOctets (is_bare showing.form) showing.max showing.depth octets.now)
        (IsNotMessage (is_bare showing.form) showing.max number octets.now) result
        (W.state sink.old).written held.old (W.state sink.new).written held.new }
    ensures reads { (n : ℕ) → reads_after result n ≡ n }
    ensures writes { (W.state sink.new).failures ≡ writes_after result (W.state sink.old).failures }
{
    if octets.is_empty() {
        return Ok(());
    }
    match message_of(octets, showing.max, showing.form) {
        Some((header, text)) => Ok(append_line(sink, held, header, text, showing.depth)?),
        None => {
            put_out(sink, held)?;
            Err(ShowError::NoMessage { line: number })
        }
    }
}

// Returns the bytes of a line, which may end with a carriage return. Returns `None` if it is not hexadecimal.
fn octets_of_line(alloc: Global, line: &[u8]) -> Result<Option<Vec<u8>>, AllocError>
    ensures { IfOk result (λ found. option_map (λ octets. octets.items) found ≡ octets_of_line line.now) }
{
    let text = match line {
        [front @ .., b'\r'] => front,
        _ => line,
    };
    octets_in(alloc, text)
}
