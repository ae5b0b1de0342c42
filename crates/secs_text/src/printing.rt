//! Printing of messages: each list by its elements, each item of values by its bytes.

mod items;
pub mod messages;
mod text;
mod values;

ghost use Rattle.std.specs.Prelude.{◌≡◌, ◌≤◌, ◌++◌, true, length, codes, string_bytes, IfOk, IfErr, OnOk};
ghost use Rattle.secs_item.specs.Item.{view};
ghost use Rattle.secs_text.specs.InRange.{IsHeld, IsHeldMessage};
ghost use Rattle.secs_text.specs.InnerBlockOutput.{IsPlace, Puts};
ghost use Rattle.secs_text.specs.Notation.{Notation};
ghost use Rattle.secs_text.specs.Printed.{printed_item, printed};
ghost use Rattle.secs_text.specs.View.{content};
ghost use Rattle.secs_text.specs.declared.fault.TextFault.TheVariants.{Memory};

use crate::block::Output;
use crate::fault::TextFault;
use crate::message::Message;
use crate::printing::items::{put_end, put_item_of_values, put_opening};
use crate::printing::messages::{Head, put_head, put_stop};
use secs_item::{Format, Item, body_octets};
use std::alloc::{AllocError, Global};

/// The bytes of a notation. They are complete if `is_whole` is true; otherwise an allocation failed.
#[derive(Drop)]
struct Collected {
    octets: Vec<u8>,
    is_whole: bool,
}

impl Output for Collected {
    ghost Given = { λ g given. g.is_whole ≡ true → g.octets.items ≡ given };

    fn give(&mut self, octets: &[u8]) {
        if self.octets.extend_from_slice(octets).is_err() {
            self.is_whole = false;
        }
    }
}

/// Prints an item, after a space.
fn put_tree<O: Output>(
    alloc: Global,
    out: &mut O,
    block: &mut [u8],
    from: usize,
    item: &Item,
) -> Result<usize, AllocError>
    requires { IsPlace block.old from }
    ensures puts { IfOk result (λ at. Puts (O.Given out.old) block.old from (O.Given out.new) block.new at
        (codes " " ++ printed_item (view item.now))) }
    ensures held { OnOk result (IsHeld (view item.now)) }
{
    let Item::List(elements) = item else {
        let octets = body_octets(alloc, item)?;
        return Ok(put_item_of_values(out, block, from, item.format(), &octets));
    };
    let mut at = put_opening(out, block, from, Format::List, elements.len());
    for element in elements {
        at = put_tree(alloc, out, block, at, element)?;
    }
    Ok(put_end(out, block, at))
}

/// Prints a message.
fn put_message<O: Output>(
    alloc: Global,
    out: &mut O,
    block: &mut [u8],
    message: &Message,
) -> Result<usize, AllocError>
    requires { IsPlace block.old 0 }
    ensures puts { IfOk result (λ at. Puts (O.Given out.old) block.old 0 (O.Given out.new) block.new at
        (printed (content message.now))) }
    ensures held { OnOk result (IsHeldMessage (content message.now)) }
{
    let head = Head {
        stream: message.stream(),
        function: message.function(),
        wait: message.wait(),
    };
    let at = put_head(out, block, 0, head);
    let Some(item) = message.item() else {
        return Ok(put_stop(out, block, at));
    };
    let at = put_tree(alloc, out, block, at, item)?;
    Ok(put_stop(out, block, at))
}

/// Returns the printed form of a message. It is the message's notation: reading it returns the message.
///
/// # Errors
///
/// Returns `Memory` if an allocation fails, and no other error.
pub fn print(alloc: Global, message: &Message) -> Result<String, TextFault>
    ensures text { IfOk result (λ text. string_bytes text ≡ printed (content message.now)) }
    ensures notation { IfOk result (λ text. Notation (content message.now) (string_bytes text)) }
    ensures held { OnOk result (IsHeldMessage (content message.now)) }
    ensures memory { IfErr result (λ f. f ≡ Memory) }
{
    let mut out = Collected {
        octets: Vec::new(alloc),
        is_whole: true,
    };
    let mut room = vec![in alloc; 0u8; 65536]?;
    let block = room.as_mut_slice();
    let end = put_message(alloc, &mut out, block, message)?;
    out.give(&block[..end]);
    if !out.is_whole {
        return Err(TextFault::Memory);
    }
    let Ok(text) = String::from_utf8(out.octets) else {
        unreachable!()
    };
    Ok(text)
}
