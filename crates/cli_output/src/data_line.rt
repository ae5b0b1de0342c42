//! The line of a data message: in notation, directly from the bytes of its text, or with its text in hexadecimal.

ghost use Rattle.std.specs.Prelude.{◌≡◌, ◌≤◌, ◌++◌, [], ◌∷◌, List, ℕ, codes, decimal, if◌then◌else◌};
ghost use Rattle.hex.specs.Hex.{encode_lower};
ghost use Rattle.secs_text.specs.BlockOutput.{AppendsBytes};
ghost use Rattle.cli_output.specs.Line.{DataLine};

use crate::line_parts::{give_decimal, give_front, give_hexadecimal};
use hsms_frame::Header;
use secs_text::{Block, Head, Output, print_text};

/// Appends the line of a data message. Its text is readable if its lists are nested at most `depth` levels deep.
#[inline(never)]
pub fn give_data<O: Output>(out: &mut O, block: &mut Block, header: Header, text: &[u8], depth: u8)
    requires { depth ≤ 100 }
    ensures { (line : List ℕ) × DataLine depth (record { header = header; text = text.now }) line
        × AppendsBytes (O.Given out.old) block.old (O.Given out.new) block.new line }
{
    let head = Head {
        stream: header.stream(),
        function: header.function(),
        wait: header.wait(),
    };
    give_front(out, block, b"data", header);
    block.append_chunk(out, b" ");
    match print_text(out, block, head, text, depth) {
        Err(_) => give_unreadable(out, block, head, text),
        Ok(()) => {
            block.append_chunk(out, b"\n");
        }
    }
}

// Appends the rest of the line of a message whose text is not readable: stream, function and W, and the text in
// hexadecimal.
fn give_unreadable<O: Output>(out: &mut O, block: &mut Block, head: Head, text: &[u8])
    ensures { AppendsBytes (O.Given out.old) block.old (O.Given out.new) block.new
        (codes "S" ++ decimal head.stream ++ codes "F" ++ decimal head.function
        ++ (if head.wait then codes " W" else []) ++ codes " ! " ++ encode_lower text.now ++ 10 ∷ []) }
{
    give_name(out, block, head);
    block.append_chunk(out, b" ! ");
    give_hexadecimal(out, block, text);
    block.append_chunk(out, b"\n");
}

// Appends stream and function, and the W bit if it is set.
fn give_name<O: Output>(out: &mut O, block: &mut Block, head: Head)
    ensures { AppendsBytes (O.Given out.old) block.old (O.Given out.new) block.new
        (codes "S" ++ decimal head.stream ++ codes "F" ++ decimal head.function
        ++ (if head.wait then codes " W" else [])) }
{
    block.append_chunk(out, b"S");
    give_decimal(out, block, head.stream);
    block.append_chunk(out, b"F");
    give_decimal(out, block, head.function);
    if head.wait {
        block.append_chunk(out, b" W");
    }
}
