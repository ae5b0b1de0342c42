//! Encoding of items to bytes.

ghost use Rattle.std.specs.Prelude.{◌≡◌, ◌<◌, ◌^◌, ◌++◌, OnOk, IfOk, IfErr, IsTrue, IsSome, IsNone, IsErrOf, Some, ◌↔◌, ◌⊎◌};
ghost use Rattle.std.specs.List.{flat_map, AllByRecursion};
ghost use Rattle.secs_item.specs.ShortestEncoding.{octet_alone, field_of, short, IsBodyOf};
ghost use Rattle.secs_item.specs.InnerShortestEncoding.{body_of, Appends};
ghost use Rattle.secs_item.specs.Encoding.{header, EncodesTo};
ghost use Rattle.secs_item.specs.Item.{view, InRange};

use crate::fault::ItemFault;
use crate::format::Format;
use crate::header::header_octets;
use crate::item::Item;
use crate::value::{Value, octets_known};
use std::alloc::{AllocError, Global};

/// The maximum number that three length bytes hold.
pub const MAX_LENGTH: usize = 0xff_ffff;

/// Appends an item's header, with the fewest length bytes that hold the number.
fn push_header(octets: &mut Vec<u8>, format: Format, number: usize) -> Result<(), AllocError>
    requires { number < 256 ^ 3 }
    ensures { OnOk result (octets.new.items ≡ octets.old.items ++ header format (field_of number) number) }
{
    if number <= 0xff {
        return octets.extend_from_slice(&header_octets(format, 1, number)[..2]);
    }
    let field = if number <= 0xffff { 2 } else { 3 };
    octets.extend_from_slice(&header_octets(format, field, number)[..1 + field])
}

/// Appends the bytes of these values.
fn push_values<V: Value>(octets: &mut Vec<u8>, values: &[V]) -> Result<(), AllocError>
    ensures octets { OnOk result (octets.new.items ≡ octets.old.items ++ flat_map V.codec.octets_of values.now) }
    ensures in_range { OnOk result (AllByRecursion V.codec.fits values.now) }
{
    for value in values {
        value.push_octets(octets)?;
    }
    Ok(())
}

/// Appends values that are plain bytes.
fn push_octets(octets: &mut Vec<u8>, values: &[u8]) -> Result<(), AllocError>
    ensures octets { OnOk result (octets.new.items ≡ octets.old.items ++ flat_map octet_alone values.now) }
    ensures in_range { AllByRecursion (λ n. n < 256) values.now }
{
    octets_known(values);
    octets.extend_from_slice(values)
}

/// Appends the bytes of the item's values in order. A list has none.
fn push_body(octets: &mut Vec<u8>, item: &Item) -> Result<(), AllocError>
    ensures octets { OnOk result (octets.new.items ≡ octets.old.items ++ body_of (view item.now)) }
    ensures in_range { OnOk result (IsBodyOf (view item.now) (body_of (view item.now))) }
{
    match item {
        Item::List(_) => Ok(()),
        Item::Binary(values) => push_octets(octets, values),
        Item::Boolean(values) => push_values(octets, values),
        Item::Ascii(values) => push_octets(octets, values),
        Item::Jis8(values) => push_octets(octets, values),
        Item::Char2(values) => push_octets(octets, values),
        Item::I1(values) => push_values(octets, values),
        Item::I2(values) => push_values(octets, values),
        Item::I4(values) => push_values(octets, values),
        Item::I8(values) => push_values(octets, values),
        Item::U1(values) => push_octets(octets, values),
        Item::U2(values) => push_values(octets, values),
        Item::U4(values) => push_values(octets, values),
        Item::U8(values) => push_values(octets, values),
        Item::F4(values) => push_values(octets, values),
        Item::F8(values) => push_values(octets, values),
    }
}

/// Returns true if the item has an encoding: three length bytes can count each of its bodies and lists.
fn has_encoding(item: &Item) -> bool
    ensures { IsTrue result ↔ IsSome (short (view item.now)) }
{
    let length = item.format().size().saturating_mul(item.count());
    if length > MAX_LENGTH {
        return false;
    }
    let Item::List(elements) = item else {
        return true;
    };
    for element in elements {
        if !has_encoding(element) {
            return false;
        }
    }
    true
}

/// Appends the shortest encoding of the item.
fn push_item(octets: &mut Vec<u8>, item: &Item) -> Result<(), AllocError>
    requires { IsSome (short (view item.now)) }
    ensures octets { OnOk result (Appends (short (view item.now)) octets.old.items octets.new.items) }
    ensures in_range { OnOk result (InRange (view item.now)) }
{
    let format = item.format();
    push_header(octets, format, format.size() * item.count())?;
    let Item::List(elements) = item else {
        return push_body(octets, item);
    };
    for element in elements {
        push_item(octets, element)?;
    }
    Ok(())
}

/// Returns the shortest encoding of the item: the fewest length bytes everywhere, and 01 for true.
///
/// # Errors
///
/// Returns `TooLarge`, before it allocates, if the length of a body or a list exceeds 16,777,215. Otherwise returns
/// `Memory` if an allocation fails.
#[tactic(auto, using(crate::proofs::Uniqueness::short_encodes))]
pub fn encode(alloc: Global, item: &Item) -> Result<Vec<u8>, ItemFault>
    ensures ok { IfOk result (λ octets. short (view item.now) ≡ Some octets.items) }
    ensures encodes_to { IfOk result (λ octets. EncodesTo (view item.now) octets.items) }
    ensures too_large { IsErrOf result ItemFault.TooLarge ↔ IsNone (short (view item.now)) }
    ensures err { IfErr result (λ f. (f ≡ ItemFault.TooLarge) ⊎ (f ≡ ItemFault.Memory)) }
{
    if !has_encoding(item) {
        return Err(ItemFault::TooLarge);
    }
    let mut octets = Vec::new(alloc);
    push_item(&mut octets, item)?;
    Ok(octets)
}

/// Returns the bytes of the item's values in order, with no limit on their number. They are the item's body if three
/// length bytes can hold their number. A list has none.
pub fn body_octets(alloc: Global, item: &Item) -> Result<Vec<u8>, AllocError>
    ensures { IfOk result (λ octets. IsBodyOf (view item.now) octets.items) }
{
    let mut octets = Vec::new(alloc);
    push_body(&mut octets, item)?;
    Ok(octets)
}
