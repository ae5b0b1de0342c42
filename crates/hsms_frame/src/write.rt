//! Messages as bytes (SEMI E37, section 8.1): four bytes with the length of header and text, the header, the text.

ghost use Rattle.std.specs.Prelude.{◌≡◌, ◌<◌, ◌+◌, ◌^◌, ◌++◌, length, IfOk, IfErr};
ghost use Rattle.std.specs.Int.{w32, to_be_bytes};
ghost use Rattle.hsms_frame.specs.Frame.{frame_octets};
ghost use Rattle.hsms_frame.specs.Header.{header_octets};
ghost use Rattle.hsms_frame.specs.Writing.{IsNotEncoded, WritesAs, failures_after_write};

use crate::fault::{FrameFault, WriteFault};
use crate::frame::Frame;
use crate::header::Header;
use crate::io::Sink;
use crate::io_loops::give_all;
use std::alloc::Global;

/// Returns the bytes of a message.
///
/// # Errors
///
/// Returns `TooLong` if header and text have more than 4,294,967,295 bytes, before it allocates. Returns `Memory` if an
/// allocation fails.
pub fn encode_frame(alloc: Global, frame: &Frame) -> Result<Vec<u8>, FrameFault>
    ensures ok { IfOk result
        (λ octets. (octets.items ≡ frame_octets frame.now) × (10 + length frame.now.text < 2 ^ 32)) }
    ensures err { IfErr result (IsNotEncoded frame.now) }
{
    let header = frame.header;
    let length = frame.length();
    if length > u64::from(u32::MAX) {
        return Err(FrameFault::TooLong { length, header });
    }
    let mut octets = Vec::from_slice(alloc, &front_octets(length as u32, header))?;
    octets.extend_from_slice(&frame.text)?;
    Ok(octets)
}

/// Writes the bytes of a message. Allocates no memory.
///
/// # Errors
///
/// Returns `TooLong` if header and text have more than 4,294,967,295 bytes. Nothing was written. Returns `Write` if the
/// sink failed. A prefix of the bytes was written.
pub fn write_frame<W: Sink>(sink: &mut W, frame: &Frame) -> Result<(), WriteFault>
    ensures octets { WritesAs frame.now result (W.state sink.old).written (W.state sink.new).written }
    ensures failures { (W.state sink.new).failures ≡ failures_after_write result (W.state sink.old).failures }
{
    let header = frame.header;
    let length = frame.length();
    if length > u64::from(u32::MAX) {
        return Err(WriteFault::TooLong { length, header });
    }
    give_all(sink, &front_octets(length as u32, header))?;
    give_all(sink, &frame.text)?;
    Ok(())
}

/// Returns the fourteen bytes before a message's text: four with `length`, the size of header and text, and the header.
pub fn front_octets(length: u32, header: Header) -> [u8; 14]
    ensures { result ≡ to_be_bytes w32 length ++ header_octets header }
{
    let [l0, l1, l2, l3] = length.to_be_bytes();
    let [h0, h1, h2, h3, h4, h5, h6, h7, h8, h9] = header.octets();
    [l0, l1, l2, l3, h0, h1, h2, h3, h4, h5, h6, h7, h8, h9]
}
