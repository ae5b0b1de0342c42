//! Messages in notation: those in bytes, and those in lines of hexadecimal digits.
//!
//! ```
//! show(alloc, &mut source, &mut sink, 16_777_216, 100)?;
//! ```
#![tactic(auto)]

mod hex_lines;
mod hex_message;
mod next_frame;
mod show_error;
mod showing;
mod showing_hex;

pub use show_error::ShowError;
pub use showing::show;
pub use showing_hex::show_hex;
