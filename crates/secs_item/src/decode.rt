//! Decoding of items from bytes.

ghost use Rattle.std.specs.Prelude.{◌≡◌, ◌≤◌, ◌<◌, ◌%◌, ◌⊎◌, ℕ, false, length, drop, IfOk, IfErr, MatchResult, IsOk, Option, Some, None, Ok, [], option_map};
ghost use Rattle.secs_item.specs.Fault.{Faults, TextFaults, IsReported, fault_at};
ghost use Rattle.secs_item.specs.Format.{is_list, value_size};
ghost use Rattle.secs_item.specs.Header.{Reason};
ghost use Rattle.secs_item.specs.InnerMeasure.{EndsAt};
ghost use Rattle.secs_item.specs.Decoding.{each, octet, values_of};
ghost use Rattle.secs_item.specs.InnerDecoding.{item_at, elements_by};
ghost use Rattle.secs_item.specs.Encoding.{IsAtFront, IsText, IsTextOf};
ghost use Rattle.secs_item.specs.Item.{Value as ItemValue, values, view};
ghost use Rattle.secs_item.specs.InnerItem.{views};

use crate::fault::ItemFault;
use crate::format::Format;
use crate::header::read_header;
use crate::item::Item;
use crate::measure::{measure_front, measure_text};
use crate::value::Value;
use std::alloc::{AllocError, Global};

/// Returns the values of a body, each `size` bytes long.
fn read_values<V: Value>(alloc: Global, body: &[u8], size: usize) -> Result<Vec<V>, AllocError>
    requires size { size ≡ V.codec.size }
    requires some { 0 < V.codec.size }
    requires whole { length body.now % V.codec.size ≡ 0 }
    ensures { IfOk result (λ v. v.items ≡ each V.codec.value_of V.codec.size body.now) }
{
    let count = body.len() / size;
    let mut values = Vec::with_capacity(alloc, count)?;
    let mut rest = body;
    for _ in 0..count {
        let (first, after) = rest.split_at(size);
        values.push(V::from_octets(first))?;
        rest = after;
    }
    Ok(values)
}

/// Returns the values of a body whose bytes are the values.
#[tactic(auto, using(crate::proofs::Bodies::each_octet))]
fn read_octets(alloc: Global, body: &[u8]) -> Result<Vec<u8>, AllocError>
    ensures { IfOk result (λ v. v.items ≡ each octet 1 body.now) }
{
    Vec::from_slice(alloc, body)
}

/// Returns the item of this format whose body is `body`. For a body from an encoded item,
/// [`body_octets`](crate::body_octets) returns the same body.
pub fn item_of_values(alloc: Global, format: Format, body: &[u8]) -> Result<Item, AllocError>
    requires no_list { is_list format ≡ false }
    requires whole { length body.now % value_size format ≡ 0 }
    ensures { IfOk result (λ item. view item ≡ values (values_of format body.now)) }
{
    match format {
        Format::List => unreachable!(),
        Format::Binary => read_octets(alloc, body).map(Item::Binary),
        Format::Boolean => read_values(alloc, body, format.size()).map(Item::Boolean),
        Format::Ascii => read_octets(alloc, body).map(Item::Ascii),
        Format::Jis8 => read_octets(alloc, body).map(Item::Jis8),
        Format::Char2 => read_octets(alloc, body).map(Item::Char2),
        Format::I1 => read_values(alloc, body, format.size()).map(Item::I1),
        Format::I2 => read_values(alloc, body, format.size()).map(Item::I2),
        Format::I4 => read_values(alloc, body, format.size()).map(Item::I4),
        Format::I8 => read_values(alloc, body, format.size()).map(Item::I8),
        Format::U1 => read_octets(alloc, body).map(Item::U1),
        Format::U2 => read_values(alloc, body, format.size()).map(Item::U2),
        Format::U4 => read_values(alloc, body, format.size()).map(Item::U4),
        Format::U8 => read_values(alloc, body, format.size()).map(Item::U8),
        Format::F4 => read_values(alloc, body, format.size()).map(Item::F4),
        Format::F8 => read_values(alloc, body, format.size()).map(Item::F8),
    }
}

/// Returns the item at offset `place` and the offset after it. The bytes were measured before, so the item is complete.
#[cycle(build)]
fn build_item(
    alloc: Global,
    octets: &[u8],
    place: usize,
    depth: u8,
) -> Result<(Item, usize), AllocError>
    requires within { place ≤ length octets.now }
    requires measured { IsOk (item_at depth (drop place octets.now)) }
    ensures { IfOk result (λ x. EndsAt place (item_at depth (drop place octets.now)) (view x.0) x.1) }
{
    let Ok(head) = read_header(octets, place, depth) else {
        unreachable!()
    };
    match head.format {
        Format::List => {
            let (elements, end) = build_elements(alloc, octets, head.body, head.length, depth - 1)?;
            Ok((Item::List(elements), end))
        }
        format => {
            let end = head.body + head.length;
            let item = item_of_values(alloc, format, &octets[head.body..end])?;
            Ok((item, end))
        }
    }
}

/// Returns the `count` items from offset `place` on and the offset after them. The bytes were measured before.
#[cycle(build)]
fn build_elements(
    alloc: Global,
    octets: &[u8],
    place: usize,
    count: usize,
    depth: u8,
) -> Result<(Vec<Item>, usize), AllocError>
    requires within { place ≤ length octets.now }
    requires measured { IsOk (elements_by (item_at depth) count (drop place octets.now)) }
    ensures { IfOk result (λ x. EndsAt place (elements_by (item_at depth) count (drop place octets.now)) (views x.0.items) x.1) }
{
    let mut elements = Vec::with_capacity(alloc, count)?;
    let mut end = place;
    for _ in 0..count {
        let (element, after) = build_item(alloc, octets, end, depth)?;
        elements.push(element)?;
        end = after;
    }
    Ok((elements, end))
}

/// Returns the item at the start and the length of its encoding in bytes. The bytes were measured before.
fn build_front(alloc: Global, octets: &[u8], depth: u8) -> Result<(Item, usize), AllocError>
    requires measured { (v : ItemValue) × (n : ℕ) × IsAtFront depth octets.now v n }
    ensures ok { IfOk result (λ x. IsAtFront depth octets.now (view x.0) x.1) }
    ensures only { (v : ItemValue) (n : ℕ) → IsAtFront depth octets.now v n → IfOk result (λ x. (view x.0 ≡ v) × (x.1 ≡ n)) }
{
    let (item, end) = build_item(alloc, octets, 0, depth)?;
    Ok((item, end))
}

/// Returns the item of a text that is not empty and was measured before.
fn build_text(alloc: Global, octets: &[u8], depth: u8) -> Result<Item, AllocError>
    requires some { 0 < length octets.now }
    requires measured { IsText depth octets.now }
    ensures ok { IfOk result (λ item. IsTextOf depth octets.now (Some (view item))) }
    ensures only { (text : Option ItemValue) → IsTextOf depth octets.now text → IfOk result (λ item. Some (view item) ≡ text) }
{
    let (item, _) = build_item(alloc, octets, 0, depth)?;
    Ok(item)
}

/// Returns the item at the start of `octets` and the length of its encoding in bytes. Its lists are nested at most
/// `depth` deep, and `depth` is at most 100. Bytes after the item are not read.
///
/// # Errors
///
/// Returns the first error, the same as [`measure_front`], before it allocates; otherwise `Memory` if an allocation
/// fails.
pub fn decode_front(alloc: Global, octets: &[u8], depth: u8) -> Result<(Item, usize), ItemFault>
    requires { depth ≤ 100 }
    ensures ok { IfOk result (λ x. IsAtFront depth octets.now (view x.0) x.1) }
    ensures ok_where { (v : ItemValue) (n : ℕ) → IsAtFront depth octets.now v n
        → MatchResult result (λ x. (view x.0 ≡ v) × (x.1 ≡ n)) (λ f. f ≡ ItemFault.Memory) }
    ensures err { IfErr result (λ f. (f ≡ ItemFault.Memory) ⊎ IsReported (Faults depth octets.now) f) }
    ensures err_where { (at : ℕ) (reason : Reason) → Faults depth octets.now at reason
        → result ≡ Err (fault_at at reason) }
{
    measure_front(octets, depth)?;
    Ok(build_front(alloc, octets, depth)?)
}

/// Returns the item of a message text. Returns `None` if the text is empty. A text is empty or one item, whose lists
/// are nested at most `depth` deep. `depth` is at most 100.
///
/// # Errors
///
/// Returns the first error, the same as [`measure_text`], before it allocates; bytes after the item are `Trailing`.
/// Otherwise returns `Memory` if an allocation fails.
pub fn decode_text(alloc: Global, octets: &[u8], depth: u8) -> Result<Option<Item>, ItemFault>
    requires { depth ≤ 100 }
    ensures none { octets.now ≡ [] → result ≡ Ok None }
    ensures ok { IfOk result (λ item. IsTextOf depth octets.now (option_map view item)) }
    ensures ok_where { (text : Option ItemValue) → IsTextOf depth octets.now text
        → MatchResult result (λ item. option_map view item ≡ text) (λ f. f ≡ ItemFault.Memory) }
    ensures err { IfErr result (λ f. (f ≡ ItemFault.Memory) ⊎ IsReported (TextFaults depth octets.now) f) }
    ensures err_where { (at : ℕ) (reason : Reason) → TextFaults depth octets.now at reason
        → result ≡ Err (fault_at at reason) }
{
    measure_text(octets, depth)?;
    if octets.is_empty() {
        return Ok(None);
    }
    Ok(Some(build_text(alloc, octets, depth)?))
}
