//! `hsms encode`: messages in notation, as bytes.

ghost use Rattle.std.specs.Prelude.{◌≡◌, ◌≤◌, List, false, IfOk, IfErr, OnOk};
ghost use Rattle.secs_text.specs.Content.{Content, AllWithin};
ghost use Rattle.secs_text.specs.Notation.{Notations};
ghost use Rattle.hsms_frame.specs.CallCounts.{next_count};
ghost use Rattle.hsms_frame.specs.Io.{IfRecorded};
ghost use Rattle.cli_filters.specs.Encode.{EncodesAll, Encodes};
ghost use Rattle.cli_filters.specs.InnerEncode.{IsNotEncoded};
ghost use Rattle.cli_filters.specs.EncodeErrors.{reads_after, writes_after};

use crate::encode_error::EncodeError;
use crate::frame_output::put_frames;
use crate::frames::Frames;
use crate::read_input::read_whole;
use cli_options::Encoding;
use hsms_frame::{Sink, Source};
use secs_text::encode_texts;
use std::alloc::Global;

/// The maximum length of the input, in bytes.
pub const INPUT_LIMIT: usize = 67_108_864;

/// Reads the complete input as messages in notation, and writes their frames in order. They have the session ID of a
/// device, and system bytes that are counted up from the first and wrap. A frame is written as bytes, or as a line of
/// hexadecimal. Nothing is written before all messages are encoded.
///
/// # Errors
///
/// - `Input`, if the input has more than 67,108,864 bytes. `Text`, if it is not messages within the depth, or an
///   allocation failed. `Frame`, if a message has no frame. The first of these errors is returned, and nothing is
///   written.
/// - `Read`, if a read failed in this call, and at most 67,108,864 bytes were consumed before it. Nothing is written.
/// - `Write`, if a write failed in this call. A part of the frames may be written.
pub fn encode_input<R: Source, W: Sink>(
    alloc: Global,
    source: &mut R,
    sink: &mut W,
    encoding: Encoding,
) -> Result<(), EncodeError>
    requires { encoding.depth ≤ 100 }
    ensures frames { IfRecorded (R.state source.old).left
        (λ input. EncodesAll encoding.device encoding.max encoding.depth encoding.hex encoding.system input result
        (R.state source.new).left (W.state sink.old).written (W.state sink.new).written) }
    // If the source does not record its bytes, its end was still found once.
    ensures end { OnOk result ((R.state source.new).ends ≡ next_count (R.state source.old).ends) }
    ensures reads { (R.state source.new).failures ≡ reads_after result (R.state source.old).failures }
    ensures writes { (W.state sink.new).failures ≡ writes_after result (W.state sink.old).failures }
{
    let input = read_whole(alloc, source, INPUT_LIMIT)?;
    let octets = encoded(alloc, &input, encoding)?;
    put_frames(alloc, sink, &octets, encoding.hex)
}

// Returns the bytes of the frames of the messages whose notation the input is.
fn encoded(alloc: Global, input: &[u8], encoding: Encoding) -> Result<Vec<u8>, EncodeError>
    requires { encoding.depth ≤ 100 }
    ensures ok { IfOk result (λ octets. (ms : List Content) × Notations ms input.now × AllWithin encoding.depth ms
        × Encodes encoding.device encoding.max false encoding.system ms octets.items) }
    ensures err { IfErr result (IsNotEncoded encoding.device encoding.max encoding.depth encoding.system input.now) }
{
    let mut frames = Frames::new(alloc, encoding);
    encode_texts(alloc, input, encoding.depth, &mut frames)?;
    Ok(frames.finish()?)
}
