//! The line that shows a message.

ghost use Rattle.std.specs.Prelude.{◌≡◌, ◌≤◌, ◌+◌, ◌++◌, [], ◌∷◌, List, ℕ, codes, decimal, length, take};
ghost use Rattle.secs_text.specs.BlockOutput.{AppendsBytes};
ghost use Rattle.cli_output.specs.Line.{LineOf, address_of, text_of};

use crate::data_line::give_data;
use crate::digits::{address, address_and_end};
use crate::line_parts::{give_front, give_number, give_text};
use hsms_frame::{Header, Kind, kind};
use secs_text::{Block, Output};

/// Appends the line of a message, with its end, to the block. If the block has no space, its content goes to the output
/// first. A text is readable if its lists are nested at most `depth` levels deep.
#[inline(always)]
pub fn give_line<O: Output>(out: &mut O, block: &mut Block, header: Header, text: &[u8], depth: u8)
    requires { depth ≤ 100 }
    ensures { (line : List ℕ) × LineOf depth (record { header = header; text = text.now }) line
        × AppendsBytes (O.Given out.old) block.old (O.Given out.new) block.new line }
{
    match kind(header) {
        Kind::Primary | Kind::Reply => give_data(out, block, header, text, depth),
        Kind::SelectReq => give_bare(out, block, b"select.req", header, text),
        Kind::SelectRsp => give_counted(out, block, b"select.rsp", header, header.byte3, text),
        Kind::LinktestReq => give_bare(out, block, b"linktest.req", header, text),
        Kind::LinktestRsp => give_bare(out, block, b"linktest.rsp", header, text),
        Kind::Reject => give_reject(out, block, header, text),
        Kind::Separate => give_bare(out, block, b"separate", header, text),
        Kind::OtherSType => give_counted(out, block, b"other-stype", header, header.stype, text),
        Kind::OtherPType => give_counted(out, block, b"other-ptype", header, header.ptype, text),
    }
}

// Appends the line of a message with only a name, session ID and system bytes. A line without a text is appended in one
// step.
#[inline(always)]
fn give_bare<O: Output>(out: &mut O, block: &mut Block, name: &[u8], header: Header, text: &[u8])
    requires { length name.now ≤ 12 }
    ensures { AppendsBytes (O.Given out.old) block.old (O.Given out.new) block.new
        (name.now ++ address_of header ++ [] ++ text_of text.now ++ 10 ∷ []) }
{
    if text.is_empty() {
        let line = bare_line(name, header);
        block.append_chunk(out, &line[..name.len() + 15]);
    } else {
        give_bare_and_text(out, block, name, &address(header), text);
    }
}

// Returns a name of at most twelve bytes, session ID and system bytes, and the end of the line. The bytes after them do
// not count.
#[inline(always)]
fn bare_line(name: &[u8], header: Header) -> [u8; 27]
    requires { length name.now ≤ 12 }
    ensures { take (length name.now + 15) result ≡ name.now ++ address_of header ++ 10 ∷ [] }
{
    let mut line = [0u8; 27];
    let (front, subsequent) = line.split_at_mut(name.len());
    front.copy_from_slice(name);
    subsequent[..15].copy_from_slice(&address_and_end(header));
    line
}

// Appends the line of a message with only a name, session ID, system bytes and a text. `address` is session ID and
// system bytes, as in a line.
#[inline(never)]
fn give_bare_and_text<O: Output>(
    out: &mut O,
    block: &mut Block,
    name: &[u8],
    address: &[u8],
    text: &[u8],
)
    ensures { AppendsBytes (O.Given out.old) block.old (O.Given out.new) block.new
        (name.now ++ address.now ++ [] ++ text_of text.now ++ 10 ∷ []) }
{
    block.append_chunk(out, name);
    block.append_chunk(out, address);
    give_text(out, block, text);
    block.append_chunk(out, b"\n");
}

// Appends the line of a message that also has a number.
#[inline(never)]
fn give_counted<O: Output>(
    out: &mut O,
    block: &mut Block,
    name: &[u8],
    header: Header,
    number: u8,
    text: &[u8],
)
    ensures { AppendsBytes (O.Given out.old) block.old (O.Given out.new) block.new
        (name.now ++ address_of header ++ (codes " " ++ decimal number) ++ text_of text.now ++ 10 ∷ []) }
{
    give_front(out, block, name, header);
    give_number(out, block, number);
    give_text(out, block, text);
    block.append_chunk(out, b"\n");
}

// Appends the line of a Reject.req, with what was rejected, and why.
#[inline(never)]
fn give_reject<O: Output>(out: &mut O, block: &mut Block, header: Header, text: &[u8])
    ensures { AppendsBytes (O.Given out.old) block.old (O.Given out.new) block.new
        (codes "reject" ++ address_of header ++ (codes " " ++ decimal header.byte2) ++ (codes " " ++ decimal header.byte3)
        ++ text_of text.now ++ 10 ∷ []) }
{
    give_front(out, block, b"reject", header);
    give_number(out, block, header.byte2);
    give_number(out, block, header.byte3);
    give_text(out, block, text);
    block.append_chunk(out, b"\n");
}
