//! Capture files that are read one after another as one capture, as those of a ring buffer.
//!
//! A [`Part`] reads one file packet by packet, and [`Part::time`] is the time of its first packet. A [`Series`] is a
//! capture in pcapng whose packets are those of its files, in order:
//!
//! ```
//! let mut series = Series::new(alloc, parts); // `parts` opens one file after another
//! let done = capture_to(alloc, options, &mut Reader::new(&mut series), &mut sink, &mut unjudged);
//! for start in series.starts() { .. } // the number of each file's first packet
//! ```
#![tactic(auto)]

mod blocks;
mod part;
mod series;

pub use blocks::Blocks;
pub use part::Part;
pub use series::{FailedPart, NextPart, PartStart, Parts, Series};
