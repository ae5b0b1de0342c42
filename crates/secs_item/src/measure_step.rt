//! One step of measuring: an item of values, or a list's header.

ghost use Rattle.std.specs.Prelude.{◌≡◌, ◌≤◌, length, drop, IfOk, IfSome};
ghost use Rattle.secs_item.specs.Header.{header_at};
ghost use Rattle.secs_item.specs.InnerMeasure.{part_from, LiesIn};

use crate::fault::ItemFault;
use crate::format::Format;
use crate::header::read_header;

/// A part of an encoding, up to where the next item can begin: an item of values, or the header of a list.
#[derive(Clone, Copy)]
pub struct Part {
    /// The offset after the part.
    pub end: usize,
    /// The number of elements of the list that follow; 0 after values.
    pub elements: usize,
}

/// The mark of a list in `MASKS`.
const LIST: u8 = 8;

/// For the first byte of a header with one length byte: the size of one value in bytes, less one. A body's length is a
/// multiple of the size if it has none of these bits. A dot marks a byte without a format, and every other byte. The
/// table agrees with the codes and sizes of `Format`, which other headers are read with. It is written out, since a
/// constant cannot call the function that computes it, and one lookup is enough to measure an item.
static MASKS: [u8; 256] = *b"\
    .\x08..............................\
    .\x00...\x00..........................\
    .\x00...\x00...\x00......................\
    .\x07...\x00...\x01.......\x03..............\
    .\x07...............\x03..............\
    .\x07...\x00...\x01.......\x03..............\
    ................................\
    ................................";

/// Returns the part at offset `place`. Returns `None` if its header may have an error, or has more than one length
/// byte, which is rare.
#[inline(always)]
fn quick_part(octets: &[u8], place: usize, depth: u8) -> Option<Part>
    requires { place ≤ length octets.now }
    ensures read { IfSome result (λ p. Ok p ≡ part_from place (header_at depth (drop place octets.now))) }
    ensures within { IfSome result (LiesIn depth place (length octets.now)) }
{
    let body = place + 2;
    if octets.len() < body {
        return None;
    }
    let mask = MASKS[usize::from(octets[place])];
    let length = usize::from(octets[place + 1]);
    if mask < LIST {
        let end = body + length;
        if length & usize::from(mask) != 0 || octets.len() < end {
            return None;
        }
        return Some(Part { end, elements: 0 });
    }
    if mask > LIST || depth == 0 {
        return None;
    }
    Some(Part {
        end: body,
        elements: length,
    })
}

/// Returns the part at offset `place`, or the first error of its header.
#[cold]
#[inline(never)]
fn part_or_fault(octets: &[u8], place: usize, depth: u8) -> Result<Part, ItemFault>
    requires { place ≤ length octets.now }
    ensures read { result ≡ part_from place (header_at depth (drop place octets.now)) }
    ensures within { IfOk result (LiesIn depth place (length octets.now)) }
{
    let header = read_header(octets, place, depth)?;
    if header.format == Format::List {
        return Ok(Part {
            end: header.body,
            elements: header.length,
        });
    }
    Ok(Part {
        end: header.body + header.length,
        elements: 0,
    })
}

/// Reads the part at offset `place`; an item of values must be complete. It looks for an error only if the quick path
/// finds no part.
#[inline(always)]
pub fn read_part(octets: &[u8], place: usize, depth: u8) -> Result<Part, ItemFault>
    requires { place ≤ length octets.now }
    ensures read { result ≡ part_from place (header_at depth (drop place octets.now)) }
    ensures within { IfOk result (LiesIn depth place (length octets.now)) }
{
    if let Some(part) = quick_part(octets, place, depth) {
        return Ok(part);
    }
    // The result is propagated with `?`. As a tail call, it costs 5 to 9 % more instructions for measuring items.
    let part = part_or_fault(octets, place, depth)?;
    Ok(part)
}
