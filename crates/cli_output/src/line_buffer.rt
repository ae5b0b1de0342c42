//! The buffer of lines before a sink.

ghost use Rattle.std.specs.Prelude.{◌≡◌, ◌≤◌, ◌<◌, ◌++◌, [], false, length, IfErr, OnOk, OnErr};
ghost use Rattle.hsms_frame.specs.CallCounts.{count_failure};
ghost use Rattle.hsms_frame.specs.Io.{Grows, GrowsByFront};
ghost use Rattle.cli_output.specs.LineBuffer.{AppendsLine, AppendsText};
ghost use Rattle.cli_output.specs.Line.{hex_line};
ghost use Rattle.cli_output.specs.IoErrors.{IsWrite};

use crate::line::give_line;
use crate::line_parts::give_hex_line;
use cli_options::ToolFault;
use hsms_frame::{Failed, Header, Sink, give_all};
use secs_text::{Block, Output};

/// An output to a sink. After a failed write it writes nothing more.
#[derive(Drop)]
struct ToSink<'a, W> {
    sink: &'a mut W,
    has_failed: bool,
}

impl<W: Sink> Output for ToSink<'_, W> {
    ghost use Rattle.cli_output.specs.InnerLineBuffer.{Sent};

    ghost Given = { λ out given. Sent out.sink.ghost_name out.has_failed (W.state out.sink.now) given };

    fn give(&mut self, octets: &[u8]) {
        if !self.has_failed {
            self.has_failed = give_all(self.sink, octets).is_err();
        }
    }
}

/// Appends the line of a message, with its end, to the buffer. If the buffer has no space, its content is written
/// first. A text is readable if its lists are nested at most `depth` levels deep.
#[inline(always)]
pub fn append_line<W: Sink>(
    sink: &mut W,
    held: &mut Block,
    header: Header,
    text: &[u8],
    depth: u8,
) -> Result<(), Failed>
    requires { depth ≤ 100 }
    ensures line { AppendsLine depth (record { header = header; text = text.now }) result
        (W.state sink.old).written held.old (W.state sink.new).written held.new }
    ensures writes { (W.state sink.new).failures ≡ count_failure result (W.state sink.old).failures }
{
    let mut out = ToSink {
        sink,
        has_failed: false,
    };
    give_to_sink(&mut out, held, header, text, depth)
}

// Appends the line of a message to an output whose sink has not failed.
#[inline(always)]
fn give_to_sink<W: Sink>(
    out: &mut ToSink<'_, W>,
    held: &mut Block,
    header: Header,
    text: &[u8],
    depth: u8,
) -> Result<(), Failed>
    requires depth { depth ≤ 100 }
    requires well { out.old.has_failed ≡ false }
    ensures same_reference { out.new.sink.ghost_name ≡ out.old.sink.ghost_name }
    ensures line { AppendsLine depth (record { header = header; text = text.now }) result
        (W.state out.old.sink.now).written held.old (W.state out.new.sink.now).written held.new }
    ensures writes { (W.state out.new.sink.now).failures ≡ count_failure result (W.state out.old.sink.now).failures }
{
    give_line(out, held, header, text, depth);
    if out.has_failed {
        return Err(Failed);
    }
    Ok(())
}

/// Appends the bytes of a message as a line of hexadecimal, with its end, to the buffer: the fourteen bytes before its
/// text, and the text. If the buffer has no space, its content is written first.
#[inline(always)]
pub fn append_hex_line<W: Sink>(
    sink: &mut W,
    held: &mut Block,
    front: &[u8; 14],
    text: &[u8],
) -> Result<(), Failed>
    ensures line { AppendsText (hex_line (front.now ++ text.now)) result
        (W.state sink.old).written held.old (W.state sink.new).written held.new }
    ensures writes { (W.state sink.new).failures ≡ count_failure result (W.state sink.old).failures }
{
    let mut out = ToSink {
        sink,
        has_failed: false,
    };
    give_hex_to_sink(&mut out, held, front, text)
}

// Appends the line of a message's bytes to an output whose sink has not failed.
#[inline(always)]
fn give_hex_to_sink<W: Sink>(
    out: &mut ToSink<'_, W>,
    held: &mut Block,
    front: &[u8; 14],
    text: &[u8],
) -> Result<(), Failed>
    requires { out.old.has_failed ≡ false }
    ensures same_reference { out.new.sink.ghost_name ≡ out.old.sink.ghost_name }
    ensures line { AppendsText (hex_line (front.now ++ text.now)) result
        (W.state out.old.sink.now).written held.old (W.state out.new.sink.now).written held.new }
    ensures writes { (W.state out.new.sink.now).failures ≡ count_failure result (W.state out.old.sink.now).failures }
{
    give_hex_line(out, held, front, text);
    if out.has_failed {
        return Err(Failed);
    }
    Ok(())
}

/// Writes the buffered bytes.
pub fn put_out<W: Sink>(sink: &mut W, held: &mut Block) -> Result<(), Failed>
    ensures ok { OnOk result (Grows (W.state sink.old).written (W.state sink.new).written held.old) }
    ensures none { OnOk result (held.new ≡ []) }
    ensures err { OnErr result (GrowsByFront (W.state sink.old).written (W.state sink.new).written held.old) }
    ensures some { OnErr result (0 < length held.old) }
    ensures writes { (W.state sink.new).failures ≡ count_failure result (W.state sink.old).failures }
{
    if held.as_slice().is_empty() {
        return Ok(());
    }
    give_all(sink, held.as_slice())?;
    held.clear();
    Ok(())
}

/// Writes all bytes.
#[inline(always)]
pub fn put<W: Sink>(sink: &mut W, octets: &[u8]) -> Result<(), ToolFault>
    ensures ok { OnOk result (Grows (W.state sink.old).written (W.state sink.new).written octets.now) }
    ensures err { OnErr result (GrowsByFront (W.state sink.old).written (W.state sink.new).written octets.now) }
    ensures word { IfErr result IsWrite }
    ensures writes { (W.state sink.new).failures ≡ count_failure result (W.state sink.old).failures }
{
    match give_all(sink, octets) {
        Ok(()) => Ok(()),
        Err(_) => Err(ToolFault::Device("Write")),
    }
}
