ghost use Rattle.std.specs.Prelude.{◌≤◌};

use super::owned::{front_of, own};
use super::{assert_named, assert_so};
use secs_item::{
    Format, Item, ItemFault, body_octets, decode_front, decode_text, encode, item_of_values,
    measure_front, measure_text, nesting,
};
use std::alloc::{AllocError, Global};
use std::process::Abort;

const DEPTH: u8 = 32;

/// Checks that a copy equals the item.
fn check_copy(rt: &impl Abort, alloc: Global, item: &Item) -> Result<(), AllocError> {
    let copy = own(item.copy(alloc)?);
    assert_so(rt, copy.item == *item, "a copy");
    Ok(())
}

/// Checks the encoding of an item.
fn check_encoded(
    rt: &impl Abort,
    alloc: Global,
    item: &Item,
    octets: &[u8],
) -> Result<(), ItemFault> {
    let encoded = encode(alloc, item)?;
    assert_so(rt, encoded.as_slice() == octets, "encoded");
    Ok(())
}

/// Checks that the bytes are a text, of this item or empty.
fn check_text(
    rt: &impl Abort,
    alloc: Global,
    octets: &[u8],
    depth: u8,
    name: &str,
) -> Result<(), ItemFault>
    requires { depth ≤ 100 }
{
    assert_so(rt, measure_text(octets, depth) == Ok(()), name);
    match decode_text(alloc, octets, depth)? {
        Some(item) => assert_named(rt, alloc, &own(item).item, name)?,
        None => assert_so(rt, name.is_empty(), "nothing"),
    }
    Ok(())
}

/// Checks the `Debug` text, the copy and the shortest encoding of an item. The encoding must also be a text.
fn check_item(
    rt: &impl Abort,
    alloc: Global,
    item: &Item,
    shortest: &[u8],
    name: &str,
) -> Result<(), ItemFault> {
    assert_named(rt, alloc, item, name)?;
    check_copy(rt, alloc, item)?;
    check_encoded(rt, alloc, item, shortest)?;
    check_text(rt, alloc, shortest, DEPTH, name)
}

/// Checks that the bytes are one item with this shortest encoding and this `Debug` text.
fn recode(
    rt: &impl Abort,
    alloc: Global,
    octets: &[u8],
    shortest: &[u8],
    name: &str,
) -> Result<(), ItemFault> {
    let measured = measure_front(octets, DEPTH);
    assert_so(rt, measured == Ok(octets.len()), name);
    let (read, length) = front_of(alloc, octets, DEPTH)?;
    assert_so(rt, length == octets.len(), name);
    check_item(rt, alloc, &read.item, shortest, name)
}

/// The bytes of an item, its shortest encoding (empty if it is the same), and its `Debug` text. Longer fields and other
/// truth values come first, then characters, truth values and numbers, and finally one of each type.
const ITEMS: &[(&[u8], &[u8], &str)] = &[
    (b"\x42\x00\x02AB", b"\x41\x02AB", "Ascii([65, 66])"),
    (b"\xab\x00\x00\x00", b"\xa9\x00", "U2([])"),
    (
        b"\x25\x03\x00\x01\x02",
        b"\x25\x03\x00\x01\x01",
        "Boolean([false, true, true])",
    ),
    (LISTS, LISTS, "List([List([])])"),
    (b"\x41\x04A\n\"B", b"", "Ascii([65, 10, 34, 66])"),
    (b"\x45\x01\xff", b"", "Jis8([255])"),
    (b"\x25\x03\x00\x01\x01", b"", "Boolean([false, true, true])"),
    (b"\x69\x02\xff\xff", b"", "I2([-1])"),
    (
        b"\x61\x08\x80\0\0\0\0\0\0\0",
        b"",
        "I8([-9223372036854775808])",
    ),
    (b"\x91\x04\x3f\x80\0\0", b"", "F4([[63, 128, 0, 0]])"),
    (b"\x01\x01\x01\0", b"", "List([List([])])"),
    (b"\x21\x01\0", b"", "Binary([0])"),
    (b"\x25\x01\0", b"", "Boolean([false])"),
    (b"\x41\x01\0", b"", "Ascii([0])"),
    (b"\x45\x01\0", b"", "Jis8([0])"),
    (b"\x49\x01\0", b"", "Char2([0])"),
    (b"\x61\x08\0\0\0\0\0\0\0\0", b"", "I8([0])"),
    (b"\x65\x01\0", b"", "I1([0])"),
    (b"\x69\x02\0\0", b"", "I2([0])"),
    (b"\x71\x04\0\0\0\0", b"", "I4([0])"),
    (
        b"\x81\x08\0\0\0\0\0\0\0\0",
        b"",
        "F8([[0, 0, 0, 0, 0, 0, 0, 0]])",
    ),
    (b"\x91\x04\0\0\0\0", b"", "F4([[0, 0, 0, 0]])"),
    (b"\xa1\x08\0\0\0\0\0\0\0\0", b"", "U8([0])"),
    (b"\xa5\x01\0", b"", "U1([0])"),
    (b"\xa9\x02\0\0", b"", "U2([0])"),
    (b"\xb1\x04\0\0\0\0", b"", "U4([0])"),
];

fn recode_each(
    rt: &impl Abort,
    alloc: Global,
    items: &[(&[u8], &[u8], &str)],
) -> Result<(), ItemFault> {
    for (octets, shorter, name) in items {
        if shorter.is_empty() {
            recode(rt, alloc, octets, octets, name)?;
        } else {
            recode(rt, alloc, octets, shorter, name)?;
        }
    }
    Ok(())
}

#[test]
fn each_type(rt: HostRuntime) -> Result<(), ItemFault> {
    recode_each(&rt, rt.alloc(), ITEMS)
}

/// Checks the `Debug` text of an item and its body.
fn check_body(
    rt: &impl Abort,
    alloc: Global,
    item: Item,
    name: &str,
    body: &[u8],
) -> Result<(), AllocError> {
    let item = own(item);
    assert_named(rt, alloc, &item.item, name)?;
    let octets = body_octets(alloc, &item.item)?;
    assert_so(rt, octets.as_slice() == body, name);
    Ok(())
}

#[test]
fn bodies(rt: HostRuntime) -> Result<(), AllocError> {
    let alloc = rt.alloc();
    let text = Item::Ascii(Vec::from_slice(alloc, b"AB")?);
    check_body(&rt, alloc, text, "Ascii([65, 66])", b"AB")?;
    let numbers = item_of_values(alloc, Format::U2, b"\x00\x01\x01\x02")?;
    check_body(&rt, alloc, numbers, "U2([1, 258])", b"\x00\x01\x01\x02")?;
    check_body(&rt, alloc, Item::List(Vec::new(alloc)), "List([])", b"")
}

const LISTS: &[u8] = b"\x01\x01\x01\x00";

fn is_another(item: &Item, other: Item) -> bool {
    let other = own(other);
    *item != other.item
}

/// Returns true if empty items of two text formats differ, and if `lists` differs from an empty list.
fn are_others(alloc: Global, lists: &Item) -> bool {
    let characters = own(Item::Ascii(Vec::new(alloc)));
    is_another(&characters.item, Item::Jis8(Vec::new(alloc)))
        && is_another(lists, Item::List(Vec::new(alloc)))
}

/// Checks two lists, of which the second one is empty.
fn check_lists(rt: &impl Abort, alloc: Global, lists: &Item) -> Result<(), ItemFault> {
    assert_so(rt, nesting(lists) == 2, "a nesting");
    assert_so(rt, are_others(alloc, lists), "another item");
    check_item(rt, alloc, lists, LISTS, "List([List([])])")
}

#[test]
fn lists_and_formats_differ(rt: HostRuntime) -> Result<(), ItemFault> {
    let (read, length) = front_of(rt.alloc(), b"\x01\x01\x01\x00\x00\x00", 2)?;
    assert_so(&rt, length == 4, "a length");
    check_lists(&rt, rt.alloc(), &read.item)
}

/// Texts, their depths, and the `Debug` texts of their items. An item without characters is nested in no list.
const TEXTS: &[(&[u8], u8, &str)] = &[
    (b"", DEPTH, ""),
    (LISTS, 2, "List([List([])])"),
    (b"\x41\x00", 0, "Ascii([])"),
];

fn check_texts(
    rt: &impl Abort,
    alloc: Global,
    texts: &[(&[u8], u8, &str)],
) -> Result<(), ItemFault> {
    for (octets, depth, name) in texts {
        check_text(rt, alloc, octets, (*depth).min(100), name)?;
    }
    Ok(())
}

#[test]
fn texts(rt: HostRuntime) -> Result<(), ItemFault> {
    check_texts(&rt, rt.alloc(), TEXTS)
}

/// Returns true if the bytes, read as a text, have this error. Measuring alone must find it.
fn has_text_fault(alloc: Global, octets: &[u8], depth: u8, fault: ItemFault) -> bool
    requires { depth ≤ 100 }
{
    measure_text(octets, depth) == Err(fault)
        && decode_text(alloc, octets, depth).err() == Some(fault)
}

/// Returns true if the bytes, read as an item at the start, have this error. Measuring alone must find it.
fn has_front_fault(alloc: Global, octets: &[u8], depth: u8, fault: ItemFault) -> bool
    requires { depth ≤ 100 }
{
    measure_front(octets, depth) == Err(fault)
        && decode_front(alloc, octets, depth).err() == Some(fault)
}

/// Checks that the bytes have this error, read as an item at the start and, unless they are empty, as a text.
fn expect_fault(rt: &impl Abort, alloc: Global, octets: &[u8], depth: u8, fault: ItemFault)
    requires { depth ≤ 100 }
{
    let is_at_front = has_front_fault(alloc, octets, depth, fault);
    assert_so(rt, is_at_front, "the fault of a front");
    let is_of_text = octets.is_empty() || has_text_fault(alloc, octets, depth, fault);
    assert_so(rt, is_of_text, "the fault of a text");
}

// The tests whose names begin with `no_growth` allocate only what they prepare beforehand. This is tested from outside,
// by a test that makes each allocation fail in turn.

/// Bytes, their depths and their errors. The last ones are prefixes of an item.
const FAULTS: &[(&[u8], u8, ItemFault)] = &[
    (b"", DEPTH, ItemFault::Truncated { at: 0 }),
    (b"\xa9", DEPTH, ItemFault::Truncated { at: 0 }),
    (b"\x40", DEPTH, ItemFault::NoLength { at: 0 }),
    (b"\x05", DEPTH, ItemFault::Format { at: 0 }),
    (b"\xa9\x03\x00\x01\xff", DEPTH, ItemFault::Ragged { at: 0 }),
    (b"\xa9\x03\x00", DEPTH, ItemFault::Ragged { at: 0 }),
    (b"\x03\xff\xff\xff", DEPTH, ItemFault::Truncated { at: 4 }),
    (LISTS, 1, ItemFault::Deep { at: 2 }),
    (b"\x01\x00", 0, ItemFault::Deep { at: 0 }),
    (b"\x01", DEPTH, ItemFault::Truncated { at: 0 }),
    (b"\x01\x02", DEPTH, ItemFault::Truncated { at: 2 }),
    (b"\x01\x02A", DEPTH, ItemFault::Truncated { at: 2 }),
    (b"\x01\x02A\x02", DEPTH, ItemFault::Truncated { at: 2 }),
    (b"\x01\x02A\x02A", DEPTH, ItemFault::Truncated { at: 2 }),
    (b"\x01\x02A\x02AB", DEPTH, ItemFault::Truncated { at: 6 }),
    (
        b"\x01\x02A\x02AB\xa5",
        DEPTH,
        ItemFault::Truncated { at: 6 },
    ),
    (
        b"\x01\x02A\x02AB\xa5\x02",
        DEPTH,
        ItemFault::Truncated { at: 6 },
    ),
    (
        b"\x01\x02A\x02AB\xa5\x02\x01",
        DEPTH,
        ItemFault::Truncated { at: 6 },
    ),
];

fn expect_faults(rt: &impl Abort, alloc: Global, faults: &[(&[u8], u8, ItemFault)]) {
    for (octets, depth, fault) in faults {
        expect_fault(rt, alloc, octets, (*depth).min(100), *fault);
    }
}

/// Checks that two bytes are nested in no list, and that bytes after a text are an error.
fn assert_ends(rt: &impl Abort, alloc: Global, octets: &[u8]) {
    assert_so(rt, measure_front(b"\x41\x00", 0) == Ok(2), "a measure");
    let trailing = ItemFault::Trailing { at: 4 };
    let is_trailing = has_text_fault(alloc, octets, DEPTH, trailing);
    assert_so(rt, is_trailing, "more behind a text");
}

#[test]
fn no_growth_for_a_fault(rt: HostRuntime) {
    expect_faults(&rt, rt.alloc(), FAULTS);
    assert_ends(&rt, rt.alloc(), b"\x01\x01\x01\x00\x00\x00");
}

#[test]
fn no_growth_for_lists_that_claim_too_much(rt: HostRuntime) {
    let octets = [[0x03, 0xff, 0xff, 0xff]; 101];
    let octets = octets.as_flattened();
    expect_fault(&rt, rt.alloc(), octets, 100, ItemFault::Deep { at: 400 });
    let (hundred, _) = octets.split_at(octets.len().min(400));
    expect_fault(
        &rt,
        rt.alloc(),
        hundred,
        100,
        ItemFault::Truncated { at: 400 },
    );
}

/// Returns the class of two bytes: 0 for an item, 1 to 5 for an error, and 6 for any other error.
fn kind_of(alloc: Global, octets: &[u8]) -> usize {
    match decode_front(alloc, octets, 1).err() {
        None => 0,
        Some(ItemFault::NoLength { .. }) => 1,
        Some(ItemFault::Format { .. }) => 2,
        Some(ItemFault::Ragged { .. }) => 3,
        Some(ItemFault::Truncated { at: 0 }) => 4,
        Some(ItemFault::Truncated { at: 2 }) => 5,
        Some(_) => 6,
    }
}

fn count_kinds(alloc: Global, first: u8, counts: &mut [u32]) {
    for second in 0..=255u8 {
        if let Some(count) = counts.get_mut(kind_of(alloc, &[first, second])) {
            *count = count.wrapping_add(1);
        }
    }
}

#[test]
fn every_two_octets(rt: HostRuntime) {
    let mut counts = [0u32; 7];
    for first in 0..=255u8 {
        count_kinds(rt.alloc(), first, &mut counts);
    }
    let requested = [16, 16_384, 36_864, 1_504, 10_513, 255, 0];
    assert_so(&rt, counts == requested, "how many of each kind");
}

/// Returns an item of `count` characters.
fn characters(alloc: Global, count: usize) -> Result<Item, AllocError> {
    Ok(Item::Ascii(vec![in alloc; 0u8; count]?))
}

/// Checks an item of the maximum length.
fn check_maximum(rt: &impl Abort, alloc: Global, item: &Item) -> Result<(), ItemFault> {
    let octets = encode(alloc, item)?;
    let is_long = octets.len() == 4 + 0xff_ffff;
    let is_so = octets.as_slice().starts_with(b"\x43\xff\xff\xff");
    assert_so(rt, is_long && is_so, "a length and a header");
    Ok(())
}

#[test]
fn greatest_length(rt: HostRuntime) -> Result<(), ItemFault> {
    let item = own(characters(rt.alloc(), 0xff_ffff)?);
    check_maximum(&rt, rt.alloc(), &item.item)?;
    Ok(())
}

fn check_too_large(rt: &impl Abort, alloc: Global, item: Item) {
    let large = own(item);
    let fault = encode(alloc, &large.item).err();
    assert_so(rt, fault == Some(ItemFault::TooLarge), "too large");
}

/// Checks an item that is too large inside a list, after one that is not.
fn check_too_large_within(rt: &impl Abort, alloc: Global) -> Result<(), AllocError> {
    let small = b"AB".to_vec(alloc)?;
    let large = vec![in alloc; 0u8; 0x100_0000]?;
    let elements = vec![in alloc; Item::Ascii(small), Item::Jis8(large)]?;
    check_too_large(rt, alloc, Item::List(elements));
    Ok(())
}

// Five allocations are the test's own.
#[test]
fn no_growth_for_what_is_too_large(rt: HostRuntime) -> Result<(), AllocError> {
    let alloc = rt.alloc();
    check_too_large(&rt, alloc, characters(alloc, 0x100_0000)?);
    check_too_large(&rt, alloc, Item::U8(vec![in alloc; 0u64; 0x20_0000]?));
    check_too_large_within(&rt, alloc)
}
