//! Reads of one message from a source.

ghost use Rattle.std.specs.Prelude.{◌≡◌, ◌⊎◌, Option, Result, Err, length};
ghost use Rattle.hsms_frame.specs.Io.{IfRecorded};
ghost use Rattle.hsms_frame.specs.Reading.{CountsWhole, ReadsAs, IsRefusal};
ghost use Rattle.hsms_frame.specs.InnerReading.{CountsPart, TakesFront, TakesLength};

use crate::fault::ReadFault;
use crate::frame::Frame;
use crate::header::{HEADER_LENGTH, Header};
use crate::io::Source;
use crate::io_loops::fill;
use std::alloc::Global;

/// Reads one message, and none of the bytes after it: four bytes, then ten, then the text (SEMI E37, section 8.1).
/// Returns `None` at the end of the input.
///
/// `max` is the maximum number of bytes of header and text.
///
/// # Errors
///
/// In the order in which they are checked:
///
/// - `TooShort` if four bytes could be read and their value is below ten. Four bytes were read.
/// - `TooLong` if fourteen bytes could be read and the value of the first four exceeds `max`. Fourteen bytes were read.
/// - `Memory` if the allocation for a nonempty text fails. Fourteen bytes were read.
/// - `CutOff` if the input ends within the message.
/// - `Read` if the source failed. Less than the message was read.
pub fn read_frame<R: Source>(
    alloc: Global,
    source: &mut R,
    max: u32,
) -> Result<Option<Frame>, ReadFault>
    // The result is allowed for the bytes that the source had left.
    ensures answer { IfRecorded (R.state source.old).left (λ input. ReadsAs max input result (R.state source.new).left) }
    // No other result is allowed.
    ensures only { IfRecorded (R.state source.old).left (λ input. (answer : _) (left : _) → ReadsAs max input answer left
        → IsRefusal answer ⊎ IsRefusal result ⊎ (result ≡ answer)) }
    ensures counts { CountsWhole result (R.state source.old) (R.state source.new) }
{
    read_message(alloc, source, max)
}

fn read_message<R: Source>(
    alloc: Global,
    source: &mut R,
    max: u32,
) -> Result<Option<Frame>, ReadFault>
    ensures answer { IfRecorded (R.state source.old).left (λ input. ReadsAs max input result (R.state source.new).left) }
    ensures only { IfRecorded (R.state source.old).left (λ input. (answer : _) (left : _) → ReadsAs max input answer left
        → IsRefusal answer ⊎ IsRefusal result ⊎ (result ≡ answer)) }
    ensures counts { CountsWhole result (R.state source.old) (R.state source.new) }
{
    let Some(length) = read_length(source)? else {
        return Ok(None);
    };
    if length < HEADER_LENGTH as u32 {
        return Err(ReadFault::TooShort {
            length: u64::from(length),
        });
    }
    let mut octets = [0u8; HEADER_LENGTH];
    read_all(source, &mut octets)?;
    let header = Header::of(octets);
    if length > max {
        return Err(ReadFault::TooLong {
            length: u64::from(length),
            header,
        });
    }
    let text = read_text(alloc, source, length as usize - HEADER_LENGTH)?;
    Ok(Some(Frame { header, text }))
}

// Reads the length field of the next message. Returns `None` at the end of the input.
fn read_length<R: Source>(source: &mut R) -> Result<Option<u32>, ReadFault>
    ensures answer { IfRecorded (R.state source.old).left (λ input. TakesLength input result (R.state source.new).left) }
    ensures counts { CountsWhole result (R.state source.old) (R.state source.new) }
{
    let mut field = [0u8; 4];
    let count = fill(source, &mut field)?;
    if count == 0 {
        return Ok(None);
    }
    if count < field.len() {
        return Err(ReadFault::CutOff);
    }
    Ok(Some(u32::from_be_bytes(field)))
}

// Fills a slice.
fn read_all<R: Source>(source: &mut R, into: &mut [u8]) -> Result<(), ReadFault>
    ensures answer { IfRecorded (R.state source.old).left
        (λ input. TakesFront (λ _. into.new) (length into.old) input result (R.state source.new).left) }
    ensures len { length into.new ≡ length into.old }
    ensures memory { result ≡ Err ReadFault.Memory → ⊥ }
    ensures counts { CountsPart result (R.state source.old) (R.state source.new) }
{
    let count = fill(source, into)?;
    if count < into.len() {
        return Err(ReadFault::CutOff);
    }
    Ok(())
}

// Reads the text of a message.
fn read_text<R: Source>(alloc: Global, source: &mut R, size: usize) -> Result<Vec<u8>, ReadFault>
    ensures answer { IfRecorded (R.state source.old).left
        (λ input. TakesFront (λ text. text.items) size input result (R.state source.new).left) }
    ensures counts { CountsPart result (R.state source.old) (R.state source.new) }
{
    let mut octets = Vec::with_capacity(alloc, size)?;
    octets.resize(size, 0)?;
    read_all(source, &mut octets)?;
    Ok(octets)
}
