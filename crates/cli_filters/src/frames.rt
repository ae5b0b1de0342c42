//! The bytes of consecutive frames of messages.

ghost use Rattle.std.specs.Prelude.{◌≡◌, ◌<◌, ◌+◌, ◌^◌, ◌++◌, [], length, OnOk, IfOk, IfErr, None, Some};
ghost use Rattle.hsms_frame.specs.Frame.{frame_octets};

use crate::encode_error::Refusal;
use cli_options::Encoding;
use hsms_frame::{Header, data_header, front_octets};
use secs_text::{Head, Receiver};
use std::alloc::{AllocError, Global};

// Appends the bytes of a frame.
fn push_octets(output: &mut Vec<u8>, header: Header, text: &[u8]) -> Result<(), AllocError>
    requires { 10 + length text.now < 2 ^ 32 }
    ensures { OnOk result (output.new.items ≡ output.old.items ++ frame_octets (record { header = header; text = text.now })) }
{
    let length = 10 + text.len() as u32;
    output.extend_from_slice(&front_octets(length, header))?;
    if text.is_empty() {
        return Ok(());
    }
    output.extend_from_slice(text)?;
    Ok(())
}

/// The bytes of consecutive frames of messages, up to the first message that has none.
#[derive(Drop)]
pub struct Frames {
    output: Vec<u8>,
    refusal: Option<Refusal>,
    encoding: Encoding,
    next: u32,
}

impl Receiver for Frames {
    ghost use Rattle.cli_filters.specs.InnerEncode.{Frames as BuffersPackets};

    type Kept = Encoding;

    ghost Given = { λ encoding frames given. (frames.encoding ≡ encoding)
        × BuffersPackets frames.encoding.device frames.encoding.max frames.encoding.system frames.next frames.refusal frames.output.items given };

    fn take(&mut self, head: Head, text: Option<&[u8]>) -> Result<(), AllocError> {
        if self.refusal.is_some() {
            return Ok(());
        }
        let Some(text) = text else {
            self.refusal = Some(Refusal::TooLarge);
            return Ok(());
        };
        let max = self.encoding.max;
        let length = 10 + text.len() as u64;
        if length > u64::from(max) {
            self.refusal = Some(Refusal::TooLong(length));
            return Ok(());
        }
        let header = data_header(
            self.encoding.device,
            head.stream,
            head.function,
            head.wait,
            self.next,
        );
        push_octets(&mut self.output, header, text)?;
        self.next = self.next.wrapping_add(1);
        Ok(())
    }
}

impl Frames {
    ghost use Rattle.cli_filters.specs.InnerEncode.{Frames as BuffersPackets};

    /// Creates a value without frames.
    pub fn new(alloc: Global, encoding: Encoding) -> Frames
        ensures { (result.encoding ≡ encoding)
            × BuffersPackets result.encoding.device result.encoding.max result.encoding.system result.next result.refusal result.output.items [] }
    {
        Frames {
            output: Vec::new(alloc),
            refusal: None,
            encoding,
            next: encoding.system,
        }
    }

    /// Returns the frames' bytes, or why a message has none.
    pub fn finish(self) -> Result<Vec<u8>, Refusal>
        ensures ok { IfOk result (λ output. (self.refusal ≡ None) × (output.items ≡ self.output.items)) }
        ensures err { IfErr result (λ refusal. self.refusal ≡ Some refusal) }
    {
        match self.refusal {
            None => Ok(self.output),
            Some(refusal) => Err(refusal),
        }
    }
}
