//! Data items.

ghost use Rattle.std.specs.Prelude.{◌≡◌, ◌↔◌, false, IfOk, IsTrue, min};
ghost use Rattle.secs_item.specs.Format.{is_list};
ghost use Rattle.secs_item.specs.Item.{count_of, format_of, nest, view};
ghost use Rattle.secs_item.specs.InnerItem.{views};

use crate::format::Format;
use std::alloc::{AllocError, Global};

/// A data item (SEMI E5): a list of items, or values of one format. Both may be empty.
///
/// Two items are equal exactly if they have the same format and the same elements or values in the same order. `Ascii`,
/// `Jis8` and `Char2` hold arbitrary bytes. `F4` and `F8` hold the bytes of each number, most significant byte first,
/// not interpreted.
#[derive(Debug, Drop)]
pub enum Item {
    List(Vec<Item>),
    Binary(Vec<u8>),
    Boolean(Vec<bool>),
    Ascii(Vec<u8>),
    Jis8(Vec<u8>),
    Char2(Vec<u8>),
    I1(Vec<i8>),
    I2(Vec<i16>),
    I4(Vec<i32>),
    I8(Vec<i64>),
    U1(Vec<u8>),
    U2(Vec<u16>),
    U4(Vec<u32>),
    U8(Vec<u64>),
    F4(Vec<[u8; 4]>),
    F8(Vec<[u8; 8]>),
}

impl Item {
    /// Returns an equal item in memory of its own. The only error is a failed allocation.
    pub fn copy(&self, alloc: Global) -> Result<Item, AllocError>
        ensures { IfOk result (λ item. view item ≡ view self.now) }
    {
        let Item::List(elements) = self else {
            return copy_values(self, alloc);
        };
        let mut copies = Vec::with_capacity(alloc, elements.len())?;
        for element in elements {
            copies.push(element.copy(alloc)?)?;
        }
        Ok(Item::List(copies))
    }

    /// Returns the format of the item.
    pub fn format(&self) -> Format
        ensures { result ≡ format_of (view self.now) }
    {
        match self {
            Item::List(_) => Format::List,
            Item::Binary(_) => Format::Binary,
            Item::Boolean(_) => Format::Boolean,
            Item::Ascii(_) => Format::Ascii,
            Item::Jis8(_) => Format::Jis8,
            Item::Char2(_) => Format::Char2,
            Item::I1(_) => Format::I1,
            Item::I2(_) => Format::I2,
            Item::I4(_) => Format::I4,
            Item::I8(_) => Format::I8,
            Item::U1(_) => Format::U1,
            Item::U2(_) => Format::U2,
            Item::U4(_) => Format::U4,
            Item::U8(_) => Format::U8,
            Item::F4(_) => Format::F4,
            Item::F8(_) => Format::F8,
        }
    }

    /// Returns the number of elements or values of the item.
    pub(crate) fn count(&self) -> usize
        ensures { result ≡ count_of (view self.now) }
    {
        match self {
            Item::List(elements) => elements.len(),
            Item::Binary(values) => values.len(),
            Item::Boolean(values) => values.len(),
            Item::Ascii(values) => values.len(),
            Item::Jis8(values) => values.len(),
            Item::Char2(values) => values.len(),
            Item::I1(values) => values.len(),
            Item::I2(values) => values.len(),
            Item::I4(values) => values.len(),
            Item::I8(values) => values.len(),
            Item::U1(values) => values.len(),
            Item::U2(values) => values.len(),
            Item::U4(values) => values.len(),
            Item::U8(values) => values.len(),
            Item::F4(values) => values.len(),
            Item::F8(values) => values.len(),
        }
    }
}

/// Returns a copy, in memory of its own, of an item that is not a list.
#[inline(always)]
fn copy_values(item: &Item, alloc: Global) -> Result<Item, AllocError>
    requires { is_list (format_of (view item.now)) ≡ false }
    ensures { IfOk result (λ copy. view copy ≡ view item.now) }
{
    match item {
        Item::List(_) => unreachable!(),
        Item::Binary(values) => Vec::from_slice(alloc, values).map(Item::Binary),
        Item::Boolean(values) => Vec::from_slice(alloc, values).map(Item::Boolean),
        Item::Ascii(values) => Vec::from_slice(alloc, values).map(Item::Ascii),
        Item::Jis8(values) => Vec::from_slice(alloc, values).map(Item::Jis8),
        Item::Char2(values) => Vec::from_slice(alloc, values).map(Item::Char2),
        Item::I1(values) => Vec::from_slice(alloc, values).map(Item::I1),
        Item::I2(values) => Vec::from_slice(alloc, values).map(Item::I2),
        Item::I4(values) => Vec::from_slice(alloc, values).map(Item::I4),
        Item::I8(values) => Vec::from_slice(alloc, values).map(Item::I8),
        Item::U1(values) => Vec::from_slice(alloc, values).map(Item::U1),
        Item::U2(values) => Vec::from_slice(alloc, values).map(Item::U2),
        Item::U4(values) => Vec::from_slice(alloc, values).map(Item::U4),
        Item::U8(values) => Vec::from_slice(alloc, values).map(Item::U8),
        Item::F4(values) => Vec::from_slice(alloc, values).map(Item::F4),
        Item::F8(values) => Vec::from_slice(alloc, values).map(Item::F8),
    }
}

/// Returns the nesting depth of lists in the item: 0 for an item of values, 1 for an empty list, and otherwise one more
/// than the deepest element. It saturates at the maximum `usize`, which no item in memory reaches.
pub fn nesting(item: &Item) -> usize
    ensures { result ≡ min (nest (view item.now)) usize.MAX }
{
    match item {
        Item::List(elements) => {
            let mut deepest = 0usize;
            for element in elements {
                deepest = deepest.max(nesting(element));
            }
            deepest.saturating_add(1)
        }
        _ => 0,
    }
}

impl PartialEq for Item {
    ghost use Rattle.std.specs.Cmp.{decided, on_equiv, partial_equiv_from_equiv};
    ghost use Rattle.std.specs.Ordering.{on};
    ghost use Rattle.secs_item.specs.Equality.{same_value, same_value-Decides};

    ghost eq = { on view same_value };

    ghost laws = { partial_equiv_from_equiv (on_equiv view (decided same_value same_value-Decides)) };

    fn eq(&self, other: &Item) -> bool
        ensures eq { result ≡ same_value (view self.now) (view other.now) }
        ensures same { IsTrue result ↔ (view self.now ≡ view other.now) }
    {
        same_item(self, other)
    }
}

impl Eq for Item {
    ghost use Rattle.std.specs.Cmp.{decided, on_equiv};
    ghost use Rattle.secs_item.specs.Equality.{same_value, same_value-Decides};

    ghost laws = { on_equiv view (decided same_value same_value-Decides) };
}

// Returns true if the other item has the same format and the same values.
macro_rules! has_values {
    ($other:expr, $format:ident, $values:expr) => {
        match $other {
            Item::$format(others) => $values == others,
            _ => false,
        }
    };
}

/// Returns true if two items have the same value.
#[cycle(same)]
fn same_item(item: &Item, other: &Item) -> bool
    ensures { IsTrue result ↔ (view item.now ≡ view other.now) }
{
    match item {
        Item::List(elements) => match other {
            Item::List(others) => same_items(elements, others),
            _ => false,
        },
        Item::Binary(values) => has_values!(other, Binary, values),
        Item::Boolean(values) => has_values!(other, Boolean, values),
        Item::Ascii(values) => has_values!(other, Ascii, values),
        Item::Jis8(values) => has_values!(other, Jis8, values),
        Item::Char2(values) => has_values!(other, Char2, values),
        Item::I1(values) => has_values!(other, I1, values),
        Item::I2(values) => has_values!(other, I2, values),
        Item::I4(values) => has_values!(other, I4, values),
        Item::I8(values) => has_values!(other, I8, values),
        Item::U1(values) => has_values!(other, U1, values),
        Item::U2(values) => has_values!(other, U2, values),
        Item::U4(values) => has_values!(other, U4, values),
        Item::U8(values) => has_values!(other, U8, values),
        Item::F4(values) => has_values!(other, F4, values),
        Item::F8(values) => has_values!(other, F8, values),
    }
}

/// Returns true if the items have the same values, in order.
#[cycle(same)]
fn same_items(items: &[Item], others: &[Item]) -> bool
    ensures { IsTrue result ↔ (views items.now ≡ views others.now) }
{
    if items.len() != others.len() {
        return false;
    }
    for (i, item) in items.iter().enumerate() {
        if !same_item(item, &others[i]) {
            return false;
        }
    }
    true
}
