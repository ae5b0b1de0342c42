//! What a received frame is of those that were sent.

use crate::numbered_frame::NumberedFrame;
use hsms_frame::Frame;

/// The number of sent frames that are searched on each side of the next one.
const SEARCHED: usize = 256;

/// What a received frame is of the frames that were sent, which are numbered from 0.
#[derive(Clone, Copy, Debug, PartialEq, Eq)]
pub enum Finding {
    /// The sent frame with the second number. The first number is that of the next one, and those between are skipped.
    Next(usize, usize),
    /// The sent frame with this number, which was skipped.
    Late(usize),
    /// The sent frame with this number, the next one, with another text.
    Altered(usize),
    /// A sent frame that was received before.
    Repeated,
    /// None of these.
    Unknown,
}

impl Finding {
    ghost use Rattle.std.specs.Prelude.{◌↔◌, ◌<◌, ℕ, length, MatchOption, IsTrue};
    ghost use Rattle.hsms_compare_repair.specs.Findings.{IsAhead, IsBehind, IsFinding, IsLeast, IsSkipped, IsRepeated, HasNextHeader};

    /// Returns the first row of the table that applies to a received frame. `skipped` tells of each sent frame before
    /// the next one whether it is skipped. If `is_open`, more frames may be sent.
    pub fn of(sent: &[NumberedFrame], is_open: bool, skipped: &[bool], frame: &Frame) -> Finding
        ensures { IsFinding sent.now is_open skipped.now frame.now result }
    {
        let next = skipped.len();
        if let Some(number) = Self::first_ahead(sent, next, frame) {
            return Finding::Next(next, number);
        }
        if let Some(number) = Self::first_skipped(sent, skipped, frame) {
            return Finding::Late(number);
        }
        if Self::has_next_header(sent, next, frame) {
            return Finding::Altered(next);
        }
        if Self::is_repeated(sent, is_open, next, frame) {
            return Finding::Repeated;
        }
        Finding::Unknown
    }

    /// Returns the first of the next sent frames that is this one.
    fn first_ahead(sent: &[NumberedFrame], next: usize, frame: &Frame) -> Option<usize>
        ensures { MatchOption result
            ((k : ℕ) → IsAhead sent.now next frame.now k → ⊥) (IsLeast (IsAhead sent.now next frame.now)) }
    {
        for number in next..sent.len().min(next.saturating_add(SEARCHED)) {
            if is_same(&sent[number].frame, frame) {
                return Some(number);
            }
        }
        None
    }

    /// Returns the first of the sent frames that were skipped last that is this one.
    fn first_skipped(sent: &[NumberedFrame], skipped: &[bool], frame: &Frame) -> Option<usize>
        ensures { MatchOption result
            ((k : ℕ) → IsSkipped sent.now skipped.now frame.now k → ⊥) (IsLeast (IsSkipped sent.now skipped.now frame.now)) }
    {
        let next = skipped.len();
        for number in next.saturating_sub(SEARCHED)..next.min(sent.len()) {
            if skipped[number] && is_same(&sent[number].frame, frame) {
                return Some(number);
            }
        }
        None
    }

    /// Returns whether the next sent frame has the same header.
    fn has_next_header(sent: &[NumberedFrame], next: usize, frame: &Frame) -> bool
        ensures { IsTrue result ↔ HasNextHeader sent.now next frame.now }
    {
        next < sent.len() && has_same_header(&sent[next].frame, frame)
    }

    /// Returns whether a frame was received before. After the last frame of an open log it may also be sent again.
    fn is_repeated(sent: &[NumberedFrame], is_open: bool, next: usize, frame: &Frame) -> bool
        ensures { IsTrue result ↔ IsRepeated sent.now is_open next frame.now }
    {
        !(is_open && next == sent.len()) && Self::is_behind(sent, next, frame)
    }

    /// Returns whether a frame is one of the last sent frames before the next one.
    fn is_behind(sent: &[NumberedFrame], next: usize, frame: &Frame) -> bool
        ensures { IsTrue result ↔ ((k : ℕ) × IsBehind sent.now next frame.now k) }
    {
        for number in next.saturating_sub(SEARCHED)..next.min(sent.len()) {
            if is_same(&sent[number].frame, frame) {
                return true;
            }
        }
        false
    }
}

ghost use Rattle.std.specs.Prelude.{◌≡◌, ◌↔◌, IsTrue};

/// Returns whether two frames have the same header and text.
fn is_same(one: &Frame, other: &Frame) -> bool
    ensures { IsTrue result ↔ (one.now ≡ other.now) }
{
    one.header == other.header && one.text.as_slice() == other.text.as_slice()
}

/// Returns whether two frames have the same header.
fn has_same_header(one: &Frame, other: &Frame) -> bool
    ensures { IsTrue result ↔ (one.now.header ≡ other.now.header) }
{
    one.header == other.header
}
