//! The content of a line that is not the first.

ghost use Rattle.std.specs.Prelude.{◌≡◌, ◌≢◌, ◌↔◌, ◌<◌, ◌≤◌, ◌/◌, ◌%◌, ◌^◌, ◌++◌, ◌∷◌, [], true, false, ℕ, List, Option, None, Ok, IsTrue, IfOk, IfErr, IfNone, IfSome, OnErr, OnOk, length, vec_len, take, drop, codes};
ghost use Rattle.hsms_frame.specs.Frame.{Frame as Message};
ghost use Rattle.hsms_machine.specs.declared.entry.Event.{Event as Happening};
ghost use Rattle.hsms_machine.specs.declared.entry.Entry.{Entry as LogEntry};
ghost use Rattle.hsms_log.specs.LineFormat.{Carries, IsBlank, EncodesEntry, EncodesEvent, IsEvent, IsMessage, IsHexOf, cause_word, message_octets, system_octets};
ghost use Rattle.hsms_machine.specs.declared.entry.Cause.{Cause as CutCause};
ghost use Rattle.hsms_machine.specs.Entry.{frame_entry};
ghost use Rattle.hsms_log.specs.Step.{entry_by, event_of};
ghost use Rattle.hsms_log.specs.LineContent.{carried_by, CarriesFrame, HasFrame, EncodesFramesOnly, EncodesNoFrame};
ghost use Rattle.hsms_machine.specs.declared.entry.Mark.{Mark as FrameMark};
ghost use Rattle.hsms_log.specs.InnerFrameLine.{IsEncoded, mark_word};

use crate::digits::decode;
use crate::fault::LineFault;
use crate::number::number_at;
use crate::step::{Step, What};
use hsms_frame::{Frame, HEADER_LENGTH, Header, drop_front};
use hsms_machine::{Cause, Entry, Event, Mark};
use std::alloc::{AllocError, Global};

/// The content of a line.
#[derive(Debug, Drop)]
pub enum Line {
    /// A comment, or an empty line.
    Nothing,
    /// An entry.
    Entry(Entry),
}

/// Returns the content of a line that is not the first. The line is passed without its end, and has at most `2 * max +
/// 64` bytes, including comments. Digits of either case are read. `Memory` is returned only for a line that has a
/// frame, or is unreadable.
pub fn read_line(alloc: Global, line: &[u8], max: u32) -> Result<Line, LineFault>
    ensures found { IfOk result (λ what. Carries max line.now (carried_by what)) }
    ensures unreadable { IfErr result (λ fault. fault ≡ LineFault.Unreadable
        → (carried : Option LogEntry) → Carries max line.now carried → ⊥) }
    ensures memory { IfErr result (λ fault. fault ≡ LineFault.Memory
        → (carried : Option LogEntry) → Carries max line.now carried → CarriesFrame carried) }
{
    if line.len() > 2 * max as usize + 64 {
        return Err(LineFault::Unreadable);
    }
    if is_blank(line) {
        return Ok(Line::Nothing);
    }
    let mut octets = Vec::new(alloc);
    if let Some(step) = read_frame_line(line, &mut octets)? {
        drop_front(&mut octets, HEADER_LENGTH);
        return Ok(Line::Entry(entry_of(step, octets)));
    }
    match read_plain_line(line) {
        Some(step) => Ok(Line::Entry(entry_of(step, Vec::new(alloc)))),
        None => Err(LineFault::Unreadable),
    }
}

/// Returns whether the line is empty, or a comment.
pub fn is_blank(line: &[u8]) -> bool
    ensures { IsTrue result ↔ IsBlank line.now }
{
    match line {
        [] => true,
        [first, ..] => *first == b'#',
    }
}

/// Returns the entry of a step, with the text of its frame.
pub fn entry_of(step: Step, text: Vec<u8>) -> Entry
    ensures { result ≡ entry_by step text.items }
{
    let event = match step.what {
        What::Up => Event::Up,
        What::Frame(Mark::Sent, header) => Event::Sent(Frame { header, text }),
        What::Frame(Mark::Taken, header) => Event::Taken(Frame { header, text }),
        What::Frame(Mark::Discarded, header) => Event::Discarded(Frame { header, text }),
        What::T3(system) => Event::T3(system),
        What::Cut(cause) => Event::Cut(cause),
        What::Down => Event::Down,
    };
    let time = step.time;
    Entry { time, event }
}

/// Reads a line with a frame. Then `octets` contains the bytes of its header and text, in place of its old content.
pub fn read_frame_line(line: &[u8], octets: &mut Vec<u8>) -> Result<Option<Step>, AllocError>
    ensures found { IfOk result (λ answer. IfSome answer (λ step.
        EncodesEntry line.now (entry_by step (drop 10 octets.new.items)))) }
    ensures size { IfOk result (λ answer. IfSome answer (λ step. 10 ≤ length octets.new.items)) }
    ensures none { result ≡ Ok None → EncodesNoFrame line.now }
    ensures memory { OnErr result (EncodesFramesOnly line.now) }
{
    let Some((frame, length)) = frame_at_front(line, octets)? else {
        return Ok(None);
    };
    octets.truncate(length);
    let FrameLine { time, mark, header } = frame;
    let what = What::Frame(mark, header);
    Ok(Some(Step { time, what }))
}

/// The content of a line with a frame, without the bytes of its header and text.
#[derive(Clone, Copy)]
pub struct FrameLine {
    pub time: u64,
    pub mark: Mark,
    pub header: Header,
}

/// The minimum number of bytes of a line with a frame: a digit, a space, the mark, a space, and the header's digits.
const SHORTEST: usize = 4 + 2 * HEADER_LENGTH;

/// Reads a line with a frame. Returns how many bytes its header and text have. Then `octets` begins with these bytes,
/// in place of its old content. It is not shortened.
#[inline(always)]
pub fn frame_at_front(
    line: &[u8],
    octets: &mut Vec<u8>,
) -> Result<Option<(FrameLine, usize)>, AllocError>
    ensures found { IfOk result (λ answer. IfSome answer (λ x. EncodesEntry line.now
        (frame_entry x.0.time x.0.mark x.0.header (drop 10 (take x.1 octets.new.items))))) }
    ensures size { IfOk result (λ answer. IfSome answer (λ x. (10 ≤ x.1) × (x.1 ≤ vec_len octets.new))) }
    ensures none { result ≡ Ok None → EncodesNoFrame line.now }
    ensures memory { OnErr result (EncodesFramesOnly line.now) }
{
    if line.len() < SHORTEST {
        return Ok(None);
    }
    let Some((time, text)) = number_at(line) else {
        return Ok(None);
    };
    let Some((mark, digits)) = mark_at(text) else {
        return Ok(None);
    };
    let Some((header, length)) = read_octets(digits, octets)? else {
        return Ok(None);
    };
    Ok(Some((FrameLine { time, mark, header }, length)))
}

/// Returns the mark of a frame, and what follows it and a space.
fn mark_at(text: &[u8]) -> Option<(Mark, &[u8])>
    ensures found { IfSome result (λ x. text.now ≡ mark_word x.0 ++ 32 ∷ x.1.now) }
    ensures none { IfNone result ((mark : FrameMark) (digits : List ℕ) → text.now ≡ mark_word mark ++ 32 ∷ digits → ⊥) }
{
    match text {
        [b'>', b' ', digits @ ..] => Some((Mark::Sent, digits)),
        [b'<', b' ', digits @ ..] => Some((Mark::Taken, digits)),
        [b'!', b' ', digits @ ..] => Some((Mark::Discarded, digits)),
        _ => None,
    }
}

/// Reads a message from hexadecimal digits. Returns its header and how many bytes header and text have. Returns `None`
/// if the digits encode no message. Then `octets` begins with these bytes, in place of its old content.
#[inline(always)]
fn read_octets(digits: &[u8], octets: &mut Vec<u8>) -> Result<Option<(Header, usize)>, AllocError>
    ensures found { IfOk result (λ answer. IfSome answer (λ x. IsEncoded digits.now x.0 (drop 10 (take x.1 octets.new.items)))) }
    ensures size { IfOk result (λ answer. IfSome answer (λ x. (10 ≤ x.1) × (x.1 ≤ vec_len octets.new))) }
    ensures none { result ≡ Ok None → (frame : Message) → IsHexOf digits.now (message_octets frame) → ⊥ }
{
    if digits.len() < 20 {
        return Ok(None);
    }
    if digits.len() % 2 != 0 {
        return Ok(None);
    }
    let length = digits.len() / 2;
    lengthen(octets, length)?;
    if !decode_front(digits, octets.as_mut_slice()) {
        return Ok(None);
    }
    let Some((header, _)) = octets.split_first_chunk::<HEADER_LENGTH>() else {
        return Ok(None);
    };
    Ok(Some((Header::of(*header), length)))
}

/// Writes the bytes that the digits encode to the start of a buffer. Returns whether all are digits.
#[inline(always)]
fn decode_front(digits: &[u8], octets: &mut [u8]) -> bool
    requires even { length digits.now % 2 ≡ 0 }
    requires some { 16 ≤ length digits.now }
    requires room { length digits.now / 2 ≤ length octets.old }
    ensures digits { result ≡ true → IsHexOf digits.now (take (length digits.now / 2) octets.new) }
    ensures other { result ≡ false → (encoded_bytes : List ℕ) → IsHexOf digits.now encoded_bytes → ⊥ }
    ensures len { length octets.new ≡ length octets.old }
{
    decode(digits, &mut octets[..digits.len() / 2])
}

/// Extends a vector, if it has fewer bytes.
#[inline(always)]
fn lengthen(octets: &mut Vec<u8>, length: usize) -> Result<(), AllocError>
    ensures { OnOk result (length ≤ vec_len octets.new) }
{
    if octets.len() < length {
        octets.resize(length, 0)?;
    }
    Ok(())
}

/// Reads a line with an entry without a frame.
pub fn read_plain_line(line: &[u8]) -> Option<Step>
    ensures found { IfSome result (λ step. EncodesEntry line.now (entry_by step [])) }
    ensures none { IfNone result (EncodesFramesOnly line.now) }
{
    let (time, text) = number_at(line)?;
    let what = read_plain_event(text)?;
    Some(Step { time, what })
}

/// Reads an event without a frame.
fn read_plain_event(text: &[u8]) -> Option<What>
    ensures found { IfSome result (λ what. IsEvent (event_of what []) × EncodesEvent text.now (event_of what [])) }
    ensures none { IfNone result ((event : Happening) → IsEvent event → EncodesEvent text.now event → HasFrame event) }
{
    match text {
        [b't', b'3', b' ', digits @ ..] => Some(What::T3(read_system(digits)?)),
        [b'c', b'u', b't', b' ', cause @ ..] => Some(What::Cut(read_cause(cause)?)),
        _ => read_word(text),
    }
}

/// Reads an event that is a single word.
#[inline(always)]
fn read_word(text: &[u8]) -> Option<What>
    ensures found { IfSome result (λ what. IsEvent (event_of what []) × EncodesEvent text.now (event_of what [])) }
    ensures none { IfNone result ((text.now ≢ codes "up") × (text.now ≢ codes "down")) }
{
    match text {
        b"up" => Some(What::Up),
        b"down" => Some(What::Down),
        _ => None,
    }
}

/// Reads why a connection was cut.
#[inline(always)]
pub fn read_cause(word: &[u8]) -> Option<Cause>
    ensures found { IfSome result (λ cause. word.now ≡ cause_word cause) }
    ensures none { IfNone result ((cause : CutCause) → word.now ≢ cause_word cause) }
{
    match word {
        b"t6" => Some(Cause::T6),
        b"t7" => Some(Cause::T7),
        b"t8" => Some(Cause::T8),
        b"length" => Some(Cause::Length),
        _ => None,
    }
}

/// Reads system bytes from eight hexadecimal digits.
pub fn read_system(digits: &[u8]) -> Option<u32>
    ensures found { IfSome result (λ system. IsHexOf digits.now (system_octets system)) }
    ensures none { IfNone result ((system : ℕ) → system < 2 ^ 32 → IsHexOf digits.now (system_octets system) → ⊥) }
{
    let mut octets = [0u8; 4];
    match hex::decode_to_slice(digits, &mut octets) {
        Ok(()) => Some(u32::from_be_bytes(octets)),
        Err(_) => None,
    }
}
