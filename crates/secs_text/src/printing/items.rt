//! Printing of items straight from their bytes. For each unfinished list it keeps the number of elements still to come.

ghost use Rattle.std.specs.Prelude.{◌≡◌, ◌≤◌, ◌<◌, ◌+◌, ◌-◌, ◌/◌, ◌++◌, ℕ, List, Ok, false, true, length, drop, IsOk, codes, decimal};
ghost use Rattle.secs_item.specs.declared.format.Format.TheVariants.{Ascii};
ghost use Rattle.secs_item.specs.Format.{is_list, value_size};
ghost use Rattle.secs_item.specs.Item.{Value, Elements};
ghost use Rattle.secs_item.specs.Decoding.{values_of};
ghost use Rattle.secs_item.specs.InnerDecoding.{item_at, elements_by};
ghost use Rattle.secs_text.specs.Body.{body_of};
ghost use Rattle.secs_text.specs.InnerBlockOutput.{AppendsText, IsPlace, Puts, opening_of, words_of};
ghost use Rattle.secs_text.specs.Printed.{printed_elements, printed_item, printed_values};
ghost use Rattle.secs_text.specs.InnerWidths.{is_width};

use crate::block::{Output, room};
use crate::block_copy::{append_byte, append_number, append_small, append_word};
use crate::formats::{Floats, Octets, Signed, Truths, Unsigned, WordFormat};
use crate::printing::values::{put_text, put_words};
use crate::type_name::opening_word;
use secs_item::{Format, MAX_DEPTH, read_header};

/// Appends a number.
#[inline(always)]
fn append_count(block: &mut [u8], at: usize, count: usize) -> usize
    requires { at + 40 ≤ length block.old }
    ensures appended_text { AppendsText block.old block.new at (decimal count) result }
    ensures near { result ≤ at + 40 }
{
    if count < 256 {
        append_small(block, at, count as u8)
    } else {
        append_number(block, at, count)
    }
}

/// Prints the opening of an item with a body of this length, after a space.
#[inline(always)]
pub fn put_opening<O: Output>(
    out: &mut O,
    block: &mut [u8],
    from: usize,
    format: Format,
    body_length: usize,
) -> usize
    requires { IsPlace block.old from }
    ensures { Puts (O.Given out.old) block.old from (O.Given out.new) block.new result
        (opening_of format (body_length / value_size format)) }
{
    let at = room(out, block, from);
    let (word, length) = opening_word(format);
    let at = append_word::<16>(block, at, word.as_slice(), length);
    let at = append_count(block, at, body_length / format.size());
    append_byte(block, at, b']')
}

/// Prints the end of an item.
#[inline(always)]
pub fn put_end<O: Output>(out: &mut O, block: &mut [u8], from: usize) -> usize
    requires { IsPlace block.old from }
    ensures { Puts (O.Given out.old) block.old from (O.Given out.new) block.new result (codes ">") }
{
    let at = room(out, block, from);
    append_byte(block, at, b'>')
}

/// Prints an item of values that are single words, with this body, after a space.
#[inline(always)]
fn put_item_of_words<const N: usize, W: WordFormat<N>, O: Output>(
    out: &mut O,
    block: &mut [u8],
    from: usize,
    format: Format,
    body: &[u8],
) -> usize
    requires width { is_width N ≡ true }
    requires words { (o : List ℕ) → words_of W.printed N o ≡ printed_values (body_of (values_of format o)) }
    requires place { IsPlace block.old from }
    ensures { Puts (O.Given out.old) block.old from (O.Given out.new) block.new result
        (opening_of format (length body.now / value_size format)
        ++ printed_values (body_of (values_of format body.now)) ++ codes ">") }
{
    let at = put_opening(out, block, from, format, body.len());
    let at = put_words::<N, W, O>(out, block, at, body);
    put_end(out, block, at)
}

/// Prints an item of values with this body, after a space. Each format has code of its own.
#[inline(never)]
pub fn put_item_of_values<O: Output>(
    out: &mut O,
    block: &mut [u8],
    at: usize,
    format: Format,
    body: &[u8],
) -> usize
    requires no_list { is_list format ≡ false }
    requires place { IsPlace block.old at }
    ensures { Puts (O.Given out.old) block.old at (O.Given out.new) block.new result
        (opening_of format (length body.now / value_size format)
        ++ printed_values (body_of (values_of format body.now)) ++ codes ">") }
{
    match format {
        Format::List => unreachable!(),
        Format::Binary => put_item_of_words::<1, Octets, O>(out, block, at, Format::Binary, body),
        Format::Boolean => put_item_of_words::<1, Truths, O>(out, block, at, Format::Boolean, body),
        Format::Ascii => {
            let at = put_opening(out, block, at, Format::Ascii, body.len());
            let at = put_text(out, block, at, body);
            put_end(out, block, at)
        }
        Format::Jis8 => put_item_of_words::<1, Octets, O>(out, block, at, Format::Jis8, body),
        Format::Char2 => put_item_of_words::<1, Octets, O>(out, block, at, Format::Char2, body),
        Format::I1 => put_item_of_words::<1, Signed, O>(out, block, at, Format::I1, body),
        Format::I2 => put_item_of_words::<2, Signed, O>(out, block, at, Format::I2, body),
        Format::I4 => put_item_of_words::<4, Signed, O>(out, block, at, Format::I4, body),
        Format::I8 => put_item_of_words::<8, Signed, O>(out, block, at, Format::I8, body),
        Format::U1 => put_item_of_words::<1, Unsigned, O>(out, block, at, Format::U1, body),
        Format::U2 => put_item_of_words::<2, Unsigned, O>(out, block, at, Format::U2, body),
        Format::U4 => put_item_of_words::<4, Unsigned, O>(out, block, at, Format::U4, body),
        Format::U8 => put_item_of_words::<8, Unsigned, O>(out, block, at, Format::U8, body),
        Format::F4 => put_item_of_words::<4, Floats, O>(out, block, at, Format::F4, body),
        Format::F8 => put_item_of_words::<8, Floats, O>(out, block, at, Format::F8, body),
    }
}

/// Prints the elements of a list, each after a space, and the end of the list. The list's header was read where lists
/// may be nested at most `depth` deep. The list has `count` elements, and its body begins at offset `place`.
#[inline(never)]
fn put_elements<O: Output>(
    out: &mut O,
    block: &mut [u8],
    from: usize,
    octets: &[u8],
    place: usize,
    count: usize,
    depth: u8,
) -> usize
    requires there { place ≤ length octets.now }
    requires some { 0 < depth }
    requires few { depth ≤ 100 }
    requires measured { IsOk (elements_by (item_at (depth - 1)) count (drop place octets.now)) }
    requires place { IsPlace block.old from }
    ensures puts { (es : Elements) (n : ℕ) → elements_by (item_at (depth - 1)) count (drop place octets.now) ≡ Ok (es, n)
        → Puts (O.Given out.old) block.old from (O.Given out.new) block.new result (printed_elements es ++ codes ">") }
    ensures place { IsPlace block.new result }
{
    let mut counts = [0; MAX_DEPTH];
    counts[0] = count;
    let mut lists = 1u8;
    let mut end = place;
    let mut at = from;
    while lists > 0 {
        let innermost = usize::from(lists) - 1;
        let left = counts[innermost];
        if left == 0 {
            at = put_end(out, block, at);
            lists -= 1;
            continue;
        }
        counts[innermost] = left - 1;
        let Ok(header) = read_header(octets, end, depth - lists) else {
            unreachable!()
        };
        if header.format.is_list() {
            at = put_opening(out, block, at, Format::List, header.length);
            counts[usize::from(lists)] = header.length;
            end = header.body;
            if header.length == 0 {
                at = put_end(out, block, at);
            } else {
                lists += 1;
            }
        } else {
            end = header.body + header.length;
            let body = &octets[header.body..end];
            at = put_item_of_values(out, block, at, header.format, body);
        }
    }
    at
}

/// Prints the item at the start of bytes that were measured, after a space.
pub fn put_item<O: Output>(
    out: &mut O,
    block: &mut [u8],
    from: usize,
    octets: &[u8],
    depth: u8,
) -> usize
    requires few { depth ≤ 100 }
    requires measured { IsOk (item_at depth octets.now) }
    requires place { IsPlace block.old from }
    ensures puts { (v : Value) (n : ℕ) → item_at depth octets.now ≡ Ok (v, n)
        → Puts (O.Given out.old) block.old from (O.Given out.new) block.new result (codes " " ++ printed_item v) }
    ensures place { IsPlace block.new result }
{
    let Ok(header) = read_header(octets, 0, depth) else {
        unreachable!()
    };
    if header.format.is_list() {
        let at = put_opening(out, block, from, Format::List, header.length);
        return put_elements(out, block, at, octets, header.body, header.length, depth);
    }
    let body = &octets[header.body..header.body + header.length];
    put_item_of_values(out, block, from, header.format, body)
}
