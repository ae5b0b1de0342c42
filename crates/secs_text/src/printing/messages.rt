//! Printing of messages straight from their bytes.

ghost use Rattle.std.specs.Prelude.{◌≡◌, ◌≤◌, ◌++◌, ℕ, List, [], Option, Err, length, codes, decimal, if◌then◌else◌, IsOk, IfErr, OnOk, OnErr};
ghost use Rattle.secs_item.specs.Fault.{TextFaults, IsReported, fault_at};
ghost use Rattle.secs_item.specs.Header.{Reason};
ghost use Rattle.secs_item.specs.Item.{Value};
ghost use Rattle.secs_item.specs.Encoding.{IsText, IsTextOf};
ghost use Rattle.secs_text.specs.InnerBlockOutput.{IsPlace, Puts};
ghost use Rattle.secs_text.specs.Printed.{printed};

use crate::block::{Block, Output, room};
use crate::block_copy::{append_byte, append_slice, append_small};
use crate::printing::items::put_item;
use secs_item::{ItemFault, measure_text};

/// The head of a message: the start of its notation.
#[derive(Clone, Copy)]
pub struct Head {
    /// The stream.
    pub stream: u8,
    /// The function.
    pub function: u8,
    /// Whether the message requests a reply: the W bit.
    pub wait: bool,
}

/// Prints a head.
pub fn put_head<O: Output>(out: &mut O, block: &mut [u8], from: usize, head: Head) -> usize
    requires { IsPlace block.old from }
    ensures { Puts (O.Given out.old) block.old from (O.Given out.new) block.new result
        (codes "S" ++ decimal head.stream ++ codes "F" ++ decimal head.function ++ (if head.wait then codes " W" else [])) }
{
    let at = room(out, block, from);
    let at = append_byte(block, at, b'S');
    let at = append_small(block, at, head.stream);
    let at = append_byte(block, at, b'F');
    let at = append_small(block, at, head.function);
    if head.wait {
        append_slice(block, at, b" W")
    } else {
        at
    }
}

/// Prints the end of a message.
pub fn put_stop<O: Output>(out: &mut O, block: &mut [u8], from: usize) -> usize
    requires { IsPlace block.old from }
    ensures { Puts (O.Given out.old) block.old from (O.Given out.new) block.new result (codes " .") }
{
    let at = room(out, block, from);
    append_slice(block, at, b" .")
}

/// Prints a message with this text, which was measured.
fn put_message<O: Output>(
    out: &mut O,
    block: &mut [u8],
    from: usize,
    head: Head,
    text: &[u8],
    depth: u8,
) -> usize
    requires few { depth ≤ 100 }
    requires measured { IsText depth text.now }
    requires place { IsPlace block.old from }
    ensures puts { (item : Option Value) → IsTextOf depth text.now item
        → Puts (O.Given out.old) block.old from (O.Given out.new) block.new result
        (printed (record { stream = head.stream; function = head.function; wait = head.wait; item = item })) }
    ensures place { IsPlace block.new result }
{
    let at = put_head(out, block, from, head);
    if text.is_empty() {
        return put_stop(out, block, at);
    }
    let at = put_item(out, block, at, text, depth);
    put_stop(out, block, at)
}

/// Prints the message that has this head and this text (SEMI E5), straight from the text's bytes. Appends its printed
/// form to the block, and passes the block's bytes to `out` whenever the block is full. The lists of the text's item
/// are nested at most `depth` deep, and `depth` is at most 100. Does not allocate.
///
/// # Errors
///
/// Returns the same errors as [`measure_text`] if the bytes are not a message text. It then prints nothing.
pub fn print_text<O: Output>(
    out: &mut O,
    block: &mut Block,
    head: Head,
    text: &[u8],
    depth: u8,
) -> Result<(), ItemFault>
    requires { depth ≤ 100 }
    ensures ok { OnOk result ((item : Option Value) × IsTextOf depth text.now item
        × ((given : List ℕ) → O.Given out.old given → (now : List ℕ) × O.Given out.new now × (now ++ block.new ≡ given ++ block.old
        ++ printed (record { stream = head.stream; function = head.function; wait = head.wait; item = item })))) }
    ensures ok_where { IsText depth text.now → IsOk result }
    ensures err { IfErr result (IsReported (TextFaults depth text.now)) }
    ensures err_where { (at : ℕ) (reason : Reason) → TextFaults depth text.now at reason
        → result ≡ Err (fault_at at reason) }
    ensures nothing { OnErr result ((out.new ≡ out.old) × (block.new ≡ block.old)) }
{
    measure_text(text, depth)?;
    let from = block.used;
    block.used = put_message(out, block.octets.as_mut_slice(), from, head, text, depth);
    Ok(())
}
