//! The lines that the command writes, and the buffer before the writer: the line of a message, and that of a verdict.
//!
//! [`append_line`] appends the line of a message to the buffered lines, and [`append_hex_line`] the line of its bytes.
//! [`put_out`] writes the buffered lines, and [`put`] writes at once:
//!
//! ```
//! append_line(&mut sink, &mut held, header, text, 100)?;
//! put_out(&mut sink, &mut held)?;
//! ```
#![tactic(auto)]

mod data_line;
mod digits;
mod line;
mod line_buffer;
mod line_parts;
mod verdict;

pub use line::give_line;
pub use line_buffer::{append_hex_line, append_line, put, put_out};
pub use verdict::verdict_line;
