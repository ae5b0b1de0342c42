//! Messages from bytes that come in chunks.

ghost use Rattle.std.specs.Prelude.{◌≡◌, ◌≤◌, ◌<◌, ◌+◌, [], ◌⊎◌, drop, length, vec_len, OnOk, OnErr, IsOkUnless, Err};
ghost use Rattle.hsms_frame.specs.Framing.{FramesAs, FrontAs, IsPushed};
ghost use Rattle.hsms_frame.specs.InnerFraming.{size_of};

use crate::fault::FrameFault;
use crate::frame::Frame;
use crate::header::{HEADER_LENGTH, Header};
use crate::prefix::drop_front;
use std::alloc::Global;
use std::marker::Model;

/// A buffer that takes bytes in chunks and returns their messages (SEMI E37, section 8.1). The messages do not depend
/// on how the bytes are divided into chunks.
///
/// Returning a message moves no bytes: the framer keeps the index of the first pending byte. Only a push without
/// capacity after the pending bytes moves them to the front.
#[derive(Drop)]
pub struct Framer {
    max: u32,
    octets: Vec<u8>,
    place: usize,
}

impl Model for Framer {
    ghost use Rattle.std.specs.Prelude.{◌≤◌, drop, vec_len};
    ghost use Rattle.hsms_frame.specs.Framing.{FramerState};

    ghost Value = { FramerState };

    ghost view = { λ f. record { max = f.max; pending = drop f.place f.octets.items } };

    ghost invariant = { λ f. f.place ≤ vec_len f.octets };
}

impl Framer {
    /// Creates a framer without bytes. `max` is the maximum number of bytes of header and text of a message.
    pub fn new(alloc: Global, max: u32) -> Framer
        ensures { result ≡ record { max = max; pending = [] } }
    {
        Framer {
            max,
            octets: Vec::new(alloc),
            place: 0,
        }
    }

    /// Returns the received bytes that belong to no returned message.
    pub fn pending(&self) -> &[u8]
        ensures { result.now ≡ self.now.pending }
    {
        &self.octets[self.place..]
    }

    /// Appends bytes to the pending bytes.
    ///
    /// # Errors
    ///
    /// Returns `Memory` if an allocation fails, and then appends nothing. Never fails if there are no bytes.
    pub fn push(&mut self, octets: &[u8]) -> Result<(), FrameFault>
        ensures ok { OnOk result (IsPushed self.old octets.now self.new) }
        ensures memory { IsOkUnless result FrameFault.Memory }
        ensures some { OnErr result (0 < length octets.now) }
        ensures err { OnErr result (self.new ≡ self.old) }
    {
        if self.octets.capacity() - self.octets.len() < octets.len() {
            drop_front(&mut self.octets, self.place);
            self.place = 0;
        }
        self.octets.extend_from_slice(octets)?;
        Ok(())
    }

    /// Returns the message at the start of the pending bytes, and removes its bytes. Returns `None` if the bytes end
    /// within a message.
    ///
    /// # Errors
    ///
    /// An error leaves the pending bytes unchanged. Returns `TooShort` if four bytes are pending and their value is
    /// below ten. Returns `TooLong` if fourteen are pending and the value of the first four exceeds the limit. Returns
    /// `Memory` only if a complete message with a text is pending.
    #[tactic(auto, using(crate::proofs::Determined::one_of_framer))]
    pub fn next(&mut self) -> Result<Option<Frame>, FrameFault>
        // The result is allowed for the pending bytes.
        ensures answer { FramesAs self.old.max self.old.pending result self.new.pending }
        // No other result is allowed.
        ensures only { (answer : _) (rest : _) → FramesAs self.old.max self.old.pending answer rest
            → (answer ≡ Err FrameFault.Memory) ⊎ (result ≡ Err FrameFault.Memory) ⊎ (result ≡ answer) }
        ensures max { self.new.max ≡ self.old.max }
    {
        let alloc = *self.octets.allocator();
        let answer = front_frame(alloc, &self.octets[self.place..], self.max);
        self.place += taken_by(&answer);
        answer
    }
}

// Returns how many bytes a result removes from the front.
#[inline(always)]
fn taken_by(answer: &Result<Option<Frame>, FrameFault>) -> usize
    ensures { result ≡ size_of answer.now }
{
    match answer {
        Ok(Some(frame)) => 14 + frame.text.len(),
        Ok(None) | Err(_) => 0,
    }
}

// Returns the message at the start of bytes, if it is complete.
fn front_frame(alloc: Global, octets: &[u8], max: u32) -> Result<Option<Frame>, FrameFault>
    ensures answer { FramesAs max octets.now result (drop (size_of result) octets.now) }
    ensures bound { size_of result ≤ length octets.now }
{
    let Some((header, size)) = front(octets, max)? else {
        return Ok(None);
    };
    let mut text = Vec::with_capacity(alloc, size)?;
    text.extend_from_slice(&octets[14..14 + size])?;
    Ok(Some(Frame { header, text }))
}

/// Returns the header of the message at the start of bytes, and the size of its text, which follows the first fourteen
/// bytes. Returns `None` if the bytes end within a message. `max` is the maximum number of bytes of header and text.
/// Allocates no memory.
///
/// # Errors
///
/// Returns `TooShort` if there are four bytes and their value is below ten. Returns `TooLong` if there are fourteen and
/// the value of the first four exceeds the limit.
#[inline(always)]
pub fn front(octets: &[u8], max: u32) -> Result<Option<(Header, usize)>, FrameFault>
    ensures { FrontAs max octets.now result }
{
    let Some((field, subsequent)) = octets.split_first_chunk::<4>() else {
        return Ok(None);
    };
    let length = u32::from_be_bytes(*field);
    if length < HEADER_LENGTH as u32 {
        return Err(FrameFault::TooShort {
            length: u64::from(length),
        });
    }
    let Some((header, text)) = subsequent.split_first_chunk::<HEADER_LENGTH>() else {
        return Ok(None);
    };
    let header = Header::of(*header);
    if length > max {
        return Err(FrameFault::TooLong {
            length: u64::from(length),
            header,
        });
    }
    let size = length as usize - HEADER_LENGTH;
    if text.len() < size {
        return Ok(None);
    }
    Ok(Some((header, size)))
}
