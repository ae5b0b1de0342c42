//! Items that tests own.

ghost use Rattle.std.specs.Prelude.{◌≤◌};

use secs_item::{Item, ItemFault, decode_front};
use std::alloc::Global;

/// An owned item. Its `Drop` is written out so that a proof has one step for a dropped value, not one for each format.
pub struct OwnItem {
    pub item: Item,
}

impl Drop for OwnItem {
    fn drop(self) {
        let OwnItem { item } = self;
        drop(item);
    }
}

/// Returns this item as an owned one.
pub fn own(item: Item) -> OwnItem {
    OwnItem { item }
}

/// Returns the item at the start of the bytes and the number of its bytes.
pub fn front_of(alloc: Global, octets: &[u8], depth: u8) -> Result<(OwnItem, usize), ItemFault>
    requires { depth ≤ 100 }
{
    let (item, length) = decode_front(alloc, octets, depth)?;
    Ok((OwnItem { item }, length))
}
