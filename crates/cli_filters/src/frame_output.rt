//! The frames of messages, written as bytes or as lines of hexadecimal.

ghost use Rattle.std.specs.Prelude.{◌≡◌, ◌≤◌, ◌-◌, ◌++◌, ℕ, List, true, OnOk, OnErr};
ghost use Rattle.hsms_frame.specs.CallCounts.{count_failure};
ghost use Rattle.hsms_frame.specs.Io.{Grows, GrowsByFront};
ghost use Rattle.hsms_frame.specs.Frame.{Frame, length_field};
ghost use Rattle.cli_filters.specs.InnerEncode.{AreFrames, WritesOut, outputs_of};
ghost use Rattle.cli_filters.specs.EncodeErrors.{reads_after, writes_after};

use crate::encode_error::EncodeError;
use cli_output::{append_hex_line, put_out};
use hsms_frame::{Failed, HEADER_LENGTH, Sink, give_all};
use secs_text::Block;
use std::alloc::Global;

/// Writes the bytes of consecutive frames: at once, or with `hex` as a line of hexadecimal each.
pub fn put_frames<W: Sink>(
    alloc: Global,
    sink: &mut W,
    octets: &[u8],
    hex: bool,
) -> Result<(), EncodeError>
    requires { (fs : List Frame) × AreFrames fs octets.now }
    ensures output { (fs : List Frame) → AreFrames fs octets.now
        → WritesOut (outputs_of hex fs) result (W.state sink.old).written (W.state sink.new).written }
    ensures reads { (n : ℕ) → reads_after result n ≡ n }
    ensures writes { (W.state sink.new).failures ≡ writes_after result (W.state sink.old).failures }
{
    if hex {
        let mut held = Block::new(alloc)?;
        return Ok(put_lines(sink, &mut held, octets)?);
    }
    Ok(give_all(sink, octets)?)
}

// Writes what is buffered, and then the line of each frame.
fn put_lines<W: Sink>(sink: &mut W, held: &mut Block, octets: &[u8]) -> Result<(), Failed>
    requires { (fs : List Frame) × AreFrames fs octets.now }
    ensures ok { (fs : List Frame) → AreFrames fs octets.now
        → OnOk result (Grows (W.state sink.old).written (W.state sink.new).written (held.old ++ outputs_of true fs)) }
    ensures err { (fs : List Frame) → AreFrames fs octets.now
        → OnErr result (GrowsByFront (W.state sink.old).written (W.state sink.new).written (held.old ++ outputs_of true fs)) }
    ensures writes { (W.state sink.new).failures ≡ count_failure result (W.state sink.old).failures }
{
    let mut rest = octets;
    while let Some((front, subsequent)) = rest.split_first_chunk::<14>() {
        let (text, others) = subsequent.split_at(text_size(*front));
        append_hex_line(sink, held, front, text)?;
        rest = others;
    }
    put_out(sink, held)
}

// Returns the number of bytes after the first fourteen of a frame.
#[inline(always)]
fn text_size(front: [u8; 14]) -> usize
    requires { 10 ≤ length_field front }
    ensures { result ≡ length_field front - 10 }
{
    let [l0, l1, l2, l3, ..] = front;
    u32::from_be_bytes([l0, l1, l2, l3]) as usize - HEADER_LENGTH
}
