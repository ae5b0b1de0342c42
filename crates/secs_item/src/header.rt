//! Item headers.

ghost use Rattle.std.specs.Prelude.{◌≡◌, ◌≤◌, ◌<◌, ◌+◌, ◌%◌, ◌^◌, true, false, length, take, drop, IfOk};
ghost use Rattle.byteorder.specs.Endian.{big_number};
ghost use Rattle.secs_item.specs.Format.{is_list, value_size};
ghost use Rattle.secs_item.specs.Header.{header_at};
ghost use Rattle.secs_item.specs.Measure.{header_from};
ghost use Rattle.secs_item.specs.Encoding.{header};

use crate::fault::ItemFault;
use crate::format::Format;
use byteorder::{BigEndian, ByteOrder};

/// The first byte of a list's header with one length byte.
const SHORT_LIST: u8 = 1;

/// A parsed header.
#[derive(Clone, Copy)]
pub struct Header {
    /// The format of the item.
    pub format: Format,
    /// The offset of the body's first byte.
    pub body: usize,
    /// The length of the body in bytes, or the number of elements of a list.
    pub length: usize,
}

/// Returns the number in a length field of one to three bytes.
fn read_length(octets: &[u8], field: usize) -> usize
    requires one_at_least { 1 ≤ field }
    requires three_at_most { field ≤ 3 }
    requires there { field ≤ length octets.now }
    ensures { result ≡ big_number field octets.now }
{
    match field {
        1 => usize::from(octets[0]),
        2 => usize::from(BigEndian::read_u16(octets)),
        _ => BigEndian::read_u24(octets) as usize,
    }
}

/// Returns the bytes of a header with `field` length bytes, at the start of the array. The remaining bytes are zero.
#[inline(always)]
pub(crate) fn header_octets(format: Format, field: usize, number: usize) -> [u8; 4]
    requires one_at_least { 1 ≤ field }
    requires three_at_most { field ≤ 3 }
    requires fits { number < 256 ^ field }
    ensures { take (1 + field) result ≡ header format field number }
{
    let first = 4 * format.code() + field as u8;
    let [.., high, middle, low] = number.to_be_bytes();
    match field {
        1 => [first, low, 0, 0],
        2 => [first, middle, low, 0],
        _ => [first, high, middle, low],
    }
}

/// Reads the header at offset `place`, where lists may be nested at most `depth` deep. The body of an item that is not
/// a list must be complete.
///
/// # Errors
///
/// Returns the first error of the header, with offset `place`.
#[inline(always)]
#[tactic(auto, unfolding(crate::specs::Header::header_at), using(crate::proofs::Headers::code_of_list))]
pub fn read_header(octets: &[u8], place: usize, depth: u8) -> Result<Header, ItemFault>
    requires { place ≤ length octets.now }
    ensures read { result ≡ header_from place (header_at depth (drop place octets.now)) }
    ensures list { IfOk result (λ h. is_list h.format ≡ true → 0 < depth) }
    ensures subsequent { IfOk result (λ h. place < h.body) }
    ensures header { IfOk result (λ h. h.body ≤ length octets.now) }
    ensures whole { IfOk result (λ h. is_list h.format ≡ false → h.length % value_size h.format ≡ 0) }
    ensures values { IfOk result (λ h. is_list h.format ≡ false → h.body + h.length ≤ length octets.now) }
{
    let Some((&first, rest)) = octets[place..].split_first() else {
        return Err(ItemFault::Truncated { at: place });
    };
    if first == SHORT_LIST {
        if depth == 0 {
            return Err(ItemFault::Deep { at: place });
        }
        let [length, ..] = rest else {
            return Err(ItemFault::Truncated { at: place });
        };
        return Ok(Header {
            format: Format::List,
            body: place + 2,
            length: usize::from(*length),
        });
    }
    let length_octets = usize::from(first % 4);
    if length_octets == 0 {
        return Err(ItemFault::NoLength { at: place });
    }
    let Some(format) = Format::from_code(first / 4) else {
        return Err(ItemFault::Format { at: place });
    };
    if format == Format::List && depth == 0 {
        return Err(ItemFault::Deep { at: place });
    }
    if rest.len() < length_octets {
        return Err(ItemFault::Truncated { at: place });
    }
    let length = read_length(rest, length_octets);
    if format != Format::List {
        if !format.is_whole(length) {
            return Err(ItemFault::Ragged { at: place });
        }
        if rest.len() - length_octets < length {
            return Err(ItemFault::Truncated { at: place });
        }
    }
    Ok(Header {
        format,
        body: place + 1 + length_octets,
        length,
    })
}
