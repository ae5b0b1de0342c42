//! Data items of SEMI E5 (SECS-II) and their bytes: measuring, decoding and encoding.
//!
//! An item is a list of items, or values of one format. Its encoding is a format byte, one to three length bytes and
//! the body. [`measure_front`] and [`measure_text`] check whether bytes are an item and how long it is, and do not
//! allocate. [`decode_front`] and [`decode_text`] measure, and then build the item. [`encode`] returns its shortest
//! encoding. `specs/Encoding.antt` defines the encodings of an item, and `specs/Fault.antt` the errors and their
//! offsets. [`laws`] has the consequences of both.
//!
//! In this example bytes are measured and decoded; the item is then encoded again, with its shortest encoding:
//!
//! ```
//! let octets = b"\x42\x00\x02AB";
//! let length = measure_front(octets, 32)?;              // 5
//! let (item, length) = decode_front(alloc, octets, 32)?; // Item::Ascii(b"AB"), 5
//! let shortest = encode(alloc, &item)?;                  // b"\x41\x02AB"
//! let text = decode_text(alloc, &shortest, 32)?;         // Some(item)
//! ```
#![tactic(auto)]

mod decode;
mod encoding;
mod fault;
mod format;
mod header;
mod header_patch;
mod item;
pub mod laws;
mod measure;
mod measure_step;
mod value;

pub use decode::{decode_front, decode_text, item_of_values};
pub use encoding::{body_octets, encode};
pub use fault::ItemFault;
pub use format::Format;
pub use header::{Header, read_header};
pub use header_patch::patch_header;
pub use item::{Item, nesting};
pub use measure::{MAX_DEPTH, measure_front, measure_text};
pub use value::octets_known;
