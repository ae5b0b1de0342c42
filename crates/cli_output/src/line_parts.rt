//! The parts of a line, appended to an output one after another.

ghost use Rattle.std.specs.Prelude.{◌≡◌, ◌<◌, ◌++◌, codes, decimal, length};
ghost use Rattle.hex.specs.Hex.{encode_lower};
ghost use Rattle.secs_text.specs.BlockOutput.{AppendsBytes};
ghost use Rattle.cli_output.specs.Line.{address_of, hex_line, text_of};

use crate::digits::address;
use hsms_frame::Header;
use hsms_log::{digits_of_few, digits_of_sixteen};
use itoa::Buffer;
use secs_text::{Block, Output};

/// Appends the start of a line: a name, session ID and system bytes.
#[inline(always)]
pub fn give_front<O: Output>(out: &mut O, block: &mut Block, name: &[u8], header: Header)
    ensures { AppendsBytes (O.Given out.old) block.old (O.Given out.new) block.new (name.now ++ address_of header) }
{
    block.append_chunk(out, name);
    block.append_chunk(out, &address(header));
}

/// Appends a number below 256 in decimal.
pub fn give_decimal<O: Output>(out: &mut O, block: &mut Block, number: u8)
    ensures { AppendsBytes (O.Given out.old) block.old (O.Given out.new) block.new (decimal number) }
{
    let mut buffer = Buffer::new();
    block.append_chunk(out, buffer.format(number).as_bytes());
}

/// Appends a space and a number below 256 in decimal.
pub fn give_number<O: Output>(out: &mut O, block: &mut Block, number: u8)
    ensures { AppendsBytes (O.Given out.old) block.old (O.Given out.new) block.new (codes " " ++ decimal number) }
{
    block.append_chunk(out, b" ");
    give_decimal(out, block, number);
}

/// Appends the text of a message that is not a data message, if it has one.
pub fn give_text<O: Output>(out: &mut O, block: &mut Block, text: &[u8])
    ensures { AppendsBytes (O.Given out.old) block.old (O.Given out.new) block.new (text_of text.now) }
{
    if !text.is_empty() {
        block.append_chunk(out, b" ! ");
        give_hexadecimal(out, block, text);
    }
}

/// Appends bytes in hexadecimal.
pub fn give_hexadecimal<O: Output>(out: &mut O, block: &mut Block, octets: &[u8])
    ensures { AppendsBytes (O.Given out.old) block.old (O.Given out.new) block.new (encode_lower octets.now) }
{
    let mut rest = octets;
    while let Some((front, others)) = rest.split_first_chunk::<16>() {
        block.append_array(out, &digits_of_sixteen(front));
        rest = others;
    }
    give_few(out, block, rest);
}

// Appends fewer than sixteen bytes in hexadecimal.
fn give_few<O: Output>(out: &mut O, block: &mut Block, octets: &[u8])
    requires { length octets.now < 16 }
    ensures { AppendsBytes (O.Given out.old) block.old (O.Given out.new) block.new (encode_lower octets.now) }
{
    let digits = digits_of_few(octets);
    block.append_chunk(out, &digits[..2 * octets.len()]);
}

/// Appends the line of a message's bytes: the fourteen bytes before its text, and the text.
#[inline(always)]
pub fn give_hex_line<O: Output>(out: &mut O, block: &mut Block, front: &[u8; 14], text: &[u8])
    ensures { AppendsBytes (O.Given out.old) block.old (O.Given out.new) block.new (hex_line (front.now ++ text.now)) }
{
    let digits = digits_of_few(front);
    block.append_chunk(out, &digits[..28]);
    give_some(out, block, text);
    block.append_chunk(out, b"\n");
}

// Appends bytes in hexadecimal, if there are any.
#[inline(always)]
fn give_some<O: Output>(out: &mut O, block: &mut Block, octets: &[u8])
    ensures { AppendsBytes (O.Given out.old) block.old (O.Given out.new) block.new (encode_lower octets.now) }
{
    if !octets.is_empty() {
        give_hexadecimal(out, block, octets);
    }
}
