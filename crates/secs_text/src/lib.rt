//! Messages of SEMI E5 (SECS-II) and their notation, a text form that a person can read and type:
//! `S6F11 W <L [2] <A [2] "AB"> <U1 [2] 1 255>> .`
//!
//! [`print`] returns the printed form of a message. [`read`] and [`read_all`] read every text that is the notation of
//! messages, and return an error with its offset for any other text. Without building a message, [`print_text`] prints
//! one from the bytes of its message text, and [`encode_texts`] encodes messages from their notation to bytes.
//!
//! In this example a text is read as one message or as several, and a message is printed:
//!
//! ```
//! let message = read(alloc, b"S6F11 W <L <A \"AB\"> <U1 1 255>> .", 32)?;
//! let text = print(alloc, &message)?;             // S6F11 W <L [2] <A [2] "AB"> <U1 [2] 1 255>> .
//! let messages = read_all(alloc, b"S1F1 W . S1F2 .", 32)?;
//! let fault = read(alloc, b"S1F1 W <U1 256> .", 32); // Err(TextFault::Number { at: 11 })
//! ```
#![tactic(auto)]

mod block;
mod block_copy;
mod byte_class;
mod canonical_tokens;
mod fault;
mod formats;
mod item_header;
pub mod laws;
mod message;
mod parsing;
mod printing;
mod quotable;
mod reading;
mod token;
mod tokens;
mod type_name;
mod word;
mod word_tables;

pub use block::{Block, Output};
pub use fault::TextFault;
pub use message::Message;
pub use parsing::{Receiver, encode_texts};
pub use printing::messages::{Head, print_text};
pub use printing::print;
pub use reading::{read, read_all};
