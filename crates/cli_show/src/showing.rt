//! `hsms show`: messages in bytes, as lines.

ghost use Rattle.std.specs.Prelude.{◌≡◌, ◌≤◌, ◌+◌, ◌++◌, [], Ok, true, IfOk, OnOk, drop, length, take, if◌then◌else◌};
ghost use Rattle.hsms_frame.specs.CallCounts.{count_failure, next_count};
ghost use Rattle.hsms_frame.specs.Io.{IfRecorded};
ghost use Rattle.cli_show.specs.InnerReadAhead.{left_after};
ghost use Rattle.cli_output.specs.LineBuffer.{AppendsLine};
ghost use Rattle.cli_show.specs.Show.{Shows};
ghost use Rattle.cli_show.specs.InnerShow.{ShowsNext, IsEnded};
ghost use Rattle.cli_show.specs.ShowErrors.{reads_after, writes_after};
ghost use Rattle.cli_show.specs.InnerShowErrors.{failures_after};

use crate::next_frame::{next_message, whole_front};
use crate::show_error::ShowError;
use cli_output::{append_line, put_out};
use hsms_frame::{Ahead, Failed, Header, ReadFault, Sink, Source};
use secs_text::Block;
use std::alloc::Global;

/// Writes the line of each message of the input, in order, up to the end of the input or the first error.
///
/// `max` is the maximum number of bytes of header and text of a message. A data message is shown in notation if its
/// text is empty or one item whose lists are nested at most `depth` levels deep. Otherwise its text is shown in
/// hexadecimal. The source is read in blocks: after an error other than a failed read, bytes after the shown messages
/// may be consumed.
///
/// # Errors
///
/// - `Read`: `TooShort`, `TooLong` or `CutOff`, if the input is not messages. `Read`, if a read failed in this call, or
///   `Memory`. The lines of the messages before are written.
/// - `Write`, if a write failed in this call. A part of the next line may be written.
/// - `Endless`, if 4,294,967,295 messages are shown and there is one more.
pub fn show<R: Source, W: Sink>(
    alloc: Global,
    source: &mut R,
    sink: &mut W,
    max: u32,
    depth: u8,
) -> Result<(), ShowError>
    requires { depth ≤ 100 }
    ensures lines { IfRecorded (R.state source.old).left (λ input. Shows max depth input result
        (R.state source.new).left (W.state sink.old).written (W.state sink.new).written) }
    // If the source does not record its bytes, its end was still found once.
    ensures end { OnOk result ((R.state source.new).ends ≡ next_count (R.state source.old).ends) }
    ensures reads { (R.state source.new).failures ≡ reads_after result (R.state source.old).failures }
    ensures writes { (W.state sink.new).failures ≡ writes_after result (W.state sink.old).failures }
{
    let mut ahead = Ahead::new(alloc)?;
    let mut held = Block::new(alloc)?;
    for _ in 0..u32::MAX {
        if !show_next(source, sink, &mut ahead, &mut held, max, depth)? {
            return Ok(());
        }
    }
    put_out(sink, &mut held)?;
    if is_at_end(source, &mut ahead, &held, max)? {
        return Ok(());
    }
    Err(ShowError::Endless)
}

// Checks for the end of the input, after the maximum number of messages was shown.
fn is_at_end<R: Source>(
    source: &mut R,
    ahead: &mut Ahead,
    held: &Block,
    max: u32,
) -> Result<bool, ReadFault>
    requires { held.now ≡ [] }
    ensures answer { IfRecorded (R.state source.old).left
        (λ rest. IsEnded max (ahead.old ++ rest) result (R.state source.new).left) }
    ensures end { result ≡ Ok true → (R.state source.new).ends ≡ next_count (R.state source.old).ends }
    ensures reads { (R.state source.new).failures ≡ failures_after result (R.state source.old).failures }
{
    match next_message(source, ahead, held, max)? {
        None => Ok(true),
        Some(_) => Ok(false),
    }
}

// Shows one message, if there is one. Its line is buffered, and the buffer is written only before more is read.
#[inline(always)]
fn show_next<R: Source, W: Sink>(
    source: &mut R,
    sink: &mut W,
    ahead: &mut Ahead,
    held: &mut Block,
    max: u32,
    depth: u8,
) -> Result<bool, ShowError>
    requires { depth ≤ 100 }
    ensures line { IfRecorded (R.state source.old).left (λ rest. ShowsNext max depth (ahead.old ++ rest) result
        (left_after result ahead.new (R.state source.new).left) (W.state sink.old).written held.old (W.state sink.new).written held.new) }
    ensures end { IfOk result (λ is_shown. (R.state source.new).ends
        ≡ (if is_shown then (R.state source.old).ends else next_count (R.state source.old).ends)) }
    ensures reads { (R.state source.new).failures ≡ reads_after result (R.state source.old).failures }
    ensures writes { (W.state sink.new).failures ≡ writes_after result (W.state sink.old).failures }
{
    let Some((header, size)) = whole_front(ahead.as_slice(), max) else {
        return show_read(source, sink, ahead, held, max, depth);
    };
    append_prefix(sink, ahead, held, header, size, depth)?;
    Ok(true)
}

// Shows one message, if more must be read first.
#[inline(never)]
fn show_read<R: Source, W: Sink>(
    source: &mut R,
    sink: &mut W,
    ahead: &mut Ahead,
    held: &mut Block,
    max: u32,
    depth: u8,
) -> Result<bool, ShowError>
    requires { depth ≤ 100 }
    ensures line { IfRecorded (R.state source.old).left (λ rest. ShowsNext max depth (ahead.old ++ rest) result
        (left_after result ahead.new (R.state source.new).left) (W.state sink.old).written held.old (W.state sink.new).written held.new) }
    ensures end { IfOk result (λ is_shown. (R.state source.new).ends
        ≡ (if is_shown then (R.state source.old).ends else next_count (R.state source.old).ends)) }
    ensures reads { (R.state source.new).failures ≡ reads_after result (R.state source.old).failures }
    ensures writes { (W.state sink.new).failures ≡ writes_after result (W.state sink.old).failures }
{
    put_out(sink, held)?;
    let Some((header, size)) = next_message(source, ahead, held, max)? else {
        return Ok(false);
    };
    append_prefix(sink, ahead, held, header, size, depth)?;
    Ok(true)
}

// Appends the line of the message at the start of what was read ahead, and passes the message.
#[inline(always)]
fn append_prefix<W: Sink>(
    sink: &mut W,
    ahead: &mut Ahead,
    held: &mut Block,
    header: Header,
    size: usize,
    depth: u8,
) -> Result<(), Failed>
    requires depth { depth ≤ 100 }
    requires there { 14 + size ≤ length ahead.old }
    ensures line { AppendsLine depth (record { header = header; text = take size (drop 14 ahead.old) }) result
        (W.state sink.old).written held.old (W.state sink.new).written held.new }
    ensures passed { OnOk result (ahead.new ≡ drop (14 + size) ahead.old) }
    ensures writes { (W.state sink.new).failures ≡ count_failure result (W.state sink.old).failures }
{
    let (_, subsequent) = ahead.as_slice().split_at(14);
    let (text, _) = subsequent.split_at(size);
    append_line(sink, held, header, text, depth)?;
    ahead.pass(14 + size);
    Ok(())
}
