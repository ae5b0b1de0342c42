//! Messages (SEMI E37, section 8.1).

ghost use Rattle.std.specs.Prelude.{◌≡◌};

use crate::header::{HEADER_LENGTH, Header};
use std::marker::Model;

/// A message: its header and its text, without the four bytes of the length field.
///
/// Contracts see the text as its list of bytes.
#[derive(Debug, Drop)]
pub struct Frame {
    pub header: Header,
    pub text: Vec<u8>,
}

impl Model for Frame {
    ghost use Rattle.hsms_frame.specs.Frame as octets;

    ghost Value = { octets.Frame };

    ghost view = { λ frame. record { header = frame.header; text = frame.text.items } };
}

impl Frame {
    ghost use Rattle.std.specs.Prelude.{◌+◌, length};

    /// Returns the number of bytes of header and text, which is the value of the length field.
    pub fn length(&self) -> u64
        ensures { result ≡ 10 + length self.now.text }
    {
        self.text.len() as u64 + HEADER_LENGTH as u64
    }
}
