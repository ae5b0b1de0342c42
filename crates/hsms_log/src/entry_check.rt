//! Checks of lines that are not the first.

ghost use Rattle.std.specs.Prelude.{◌-◌, ◌<◌, ◌≤◌, ◌^◌, List, ℕ, Some, IfOk, length};
ghost use Rattle.hsms_machine.specs.Entry.{frame_entry};
ghost use Rattle.hsms_log.specs.LineFormat.{Carries, IsBlank, line_limit};
ghost use Rattle.hsms_log.specs.LineContent.{EncodesNoFrame};
ghost use Rattle.hsms_log.specs.AuditState.{Tracks};
ghost use Rattle.hsms_log.specs.InnerAuditState.{IsChecked};

use crate::audit_state::Session;
use crate::reading::{FrameLine, entry_of, frame_at_front, is_blank, read_plain_line};
use crate::tally::Tally;
use crate::verdict::Why;
use hsms_frame::HEADER_LENGTH;
use hsms_machine::{Entry, EntryRef};
use std::alloc::{AllocError, Global};

/// Checks a line that is not the first. `octets` is a buffer for the bytes of its frame, reused from line to line.
pub fn check_entry_line(
    session: &mut Session,
    tally: &mut Tally,
    octets: &mut Vec<u8>,
    alloc: Global,
    line: &[u8],
) -> Result<Option<Why>, AllocError>
    requires { tally.old.lines < 2 ^ 64 - 1 }
    ensures { IfOk result (IsChecked tally.old.lines tally.new.lines (Tracks session.old tally.old) (Tracks session.new tally.new) line.now) }
{
    let max = session.settings.max();
    if line.len() > 2 * max as usize + 64 {
        return Ok(Some(Why::Unreadable));
    }
    if is_blank(line) {
        tally.count_line();
        return Ok(None);
    }
    match frame_at_front(line, octets)? {
        Some((frame, length)) => {
            let (_, text) = octets[..length].split_at(HEADER_LENGTH);
            frame_line(session, tally, frame, text)
        }
        None => other_line(session, tally, alloc, line),
    }
}

/// Checks the frame of a line.
fn frame_line(
    session: &mut Session,
    tally: &mut Tally,
    frame: FrameLine,
    text: &[u8],
) -> Result<Option<Why>, AllocError>
    requires { tally.old.lines < 2 ^ 64 - 1 }
    ensures { (line : List ℕ) → Carries session.old.settings.max line (Some (frame_entry frame.time frame.mark frame.header text.now))
        → IfOk result (IsChecked tally.old.lines tally.new.lines (Tracks session.old tally.old) (Tracks session.new tally.new) line) }
{
    let FrameLine { time, mark, header } = frame;
    let entry = EntryRef::of_frame(time, mark, header, text);
    if let Some(rule) = session.tracker.step_ref(&entry)? {
        return Ok(Some(Why::Broken(rule)));
    }
    tally.count_frame(mark);
    Ok(None)
}

/// Checks a line that has no frame, or is unreadable.
#[inline(never)]
fn other_line(
    session: &mut Session,
    tally: &mut Tally,
    alloc: Global,
    line: &[u8],
) -> Result<Option<Why>, AllocError>
    requires room { tally.old.lines < 2 ^ 64 - 1 }
    requires fits { length line.now ≤ line_limit session.old.settings.max }
    requires entry { IsBlank line.now → ⊥ }
    requires other { EncodesNoFrame line.now }
    ensures { IfOk result (IsChecked tally.old.lines tally.new.lines (Tracks session.old tally.old) (Tracks session.new tally.new) line.now) }
{
    match read_plain_line(line) {
        Some(step) => carried_entry(session, tally, &entry_of(step, Vec::new(alloc))),
        None => Ok(Some(Why::Unreadable)),
    }
}

/// Checks the entry of a line.
pub fn carried_entry(
    session: &mut Session,
    tally: &mut Tally,
    entry: &Entry,
) -> Result<Option<Why>, AllocError>
    requires { tally.old.lines < 2 ^ 64 - 1 }
    ensures { (line : List ℕ) → Carries session.old.settings.max line (Some entry.now)
        → IfOk result (IsChecked tally.old.lines tally.new.lines (Tracks session.old tally.old) (Tracks session.new tally.new) line) }
{
    if let Some(rule) = session.tracker.step(entry)? {
        return Ok(Some(Why::Broken(rule)));
    }
    tally.count_entry(entry);
    Ok(None)
}
