//! The facts of one direction.

ghost use Rattle.std.specs.Prelude.{◌≡◌, ◌+◌, ◌-◌, ◌++◌, ◌≤◌, [], length, map, take, drop, false, nat_le, nat_lt, slice_index_or, IfOk, OnOk};
ghost use Rattle.std.specs.List.{filter};
ghost use Rattle.hsms_compare_repair.specs.declared.numbered_frame.NumberedFrame.{NumberedFrame as Numbered};
ghost use Rattle.hsms_compare_repair.specs.Facts.{AreFacts, IsShown, line_at, facts_from, facts_at, skipped_fact, skipped_facts, facts_of_unknown, unsents, laters, unfounds};

use crate::fact::Fact;
use crate::finding::Finding;
use crate::matching::{GIVEN_UP, Matching};
use crate::numbered_frame::NumberedFrame;
use std::alloc::{AllocError, Global};

/// Returns the facts of the frames from one endpoint to the other, by the receiver's lines. If `is_open`, the sender's
/// log may have more entries. `shown` is the receiver's last line that the sender's log shows as received, as
/// `shown_line` of the other direction returns it.
///
/// # Errors
///
/// Returns `AllocError` if an allocation fails.
pub fn facts_of(
    alloc: Global,
    sent: &[NumberedFrame],
    received: &[NumberedFrame],
    is_open: bool,
    shown: u64,
) -> Result<Vec<Fact>, AllocError>
    ensures { IfOk result (λ facts. AreFacts sent.now received.now is_open shown facts.items) }
{
    let matching = Matching::of(alloc, sent, received, is_open)?;
    let count = matching.findings.len().saturating_sub(matching.unknown);
    let mut facts = Vec::new(alloc);
    push_known(&mut facts, sent, received, &matching, count)?;
    let lines = lines_between(alloc, received, count, matching.findings.len())?;
    push_unknown(
        alloc,
        &mut facts,
        sent.len(),
        is_open,
        shown,
        matching.skipped.len(),
        lines.as_slice(),
    )?;
    Ok(facts)
}

/// Returns the last of the sender's lines that the receiver's log shows as received, or 0 if it shows none.
///
/// # Errors
///
/// Returns `AllocError` if an allocation fails.
pub fn shown_line(
    alloc: Global,
    sent: &[NumberedFrame],
    received: &[NumberedFrame],
    is_open: bool,
) -> Result<u64, AllocError>
    ensures { IfOk result (IsShown sent.now received.now is_open) }
{
    let matching = Matching::of(alloc, sent, received, is_open)?;
    let next = matching.skipped.len();
    if next == 0 {
        return Ok(0);
    }
    Ok(line_of(sent, next - 1))
}

/// Returns the line of a frame, or 0 if there is no such frame.
fn line_of(frames: &[NumberedFrame], number: usize) -> u64
    ensures { result ≡ line_at frames.now number }
{
    if number < frames.len() {
        return frames[number].line;
    }
    0
}

/// Returns the lines of frames.
fn lines_of(alloc: Global, frames: &[NumberedFrame]) -> Result<Vec<u64>, AllocError>
    ensures { IfOk result (λ lines. lines.items ≡ map (λ (frame : Numbered). frame.line) frames.now) }
{
    let mut lines = Vec::new(alloc);
    for frame in frames {
        lines.push(frame.line)?;
    }
    Ok(lines)
}

/// Returns the lines of the frames from one number up to another.
fn lines_between(
    alloc: Global,
    frames: &[NumberedFrame],
    from: usize,
    to: usize,
) -> Result<Vec<u64>, AllocError>
    requires order { from ≤ to }
    requires within { to ≤ length frames.now }
    ensures { IfOk result (λ lines.
        lines.items ≡ map (λ (frame : Numbered). frame.line) (take (to - from) (drop from frames.now))) }
{
    lines_of(alloc, &frames[from..to])
}

/// Appends what is told of this many of the first received frames.
fn push_known(
    facts: &mut Vec<Fact>,
    sent: &[NumberedFrame],
    received: &[NumberedFrame],
    matching: &Matching,
    count: usize,
) -> Result<(), AllocError>
    requires { count ≤ length matching.now.findings.items }
    ensures { OnOk result (facts.new.items ≡ facts.old.items
        ++ facts_from sent.now matching.now.skipped.items received.now 0 (take count matching.now.findings.items)) }
{
    for index in 0..count {
        let found = matching.findings[index];
        let line = line_of(received, index);
        push_at(facts, sent, matching.skipped.as_slice(), line, found)?;
    }
    Ok(())
}

/// Appends what is told of a received frame.
fn push_at(
    facts: &mut Vec<Fact>,
    sent: &[NumberedFrame],
    skipped: &[bool],
    receiver: u64,
    found: Finding,
) -> Result<(), AllocError>
    ensures { OnOk result (facts.new.items ≡ facts.old.items ++ facts_at sent.now skipped.now receiver found) }
{
    let fact = match found {
        Finding::Next(next, number) => {
            return push_skipped(facts, sent, skipped, receiver, next, number);
        }
        Finding::Late(number) => Fact::Swapped {
            sender: line_of(sent, number),
            receiver,
        },
        Finding::Altered(number) => Fact::Differs {
            sender: line_of(sent, number),
            receiver,
        },
        Finding::Repeated => Fact::Again { receiver },
        Finding::Unknown => Fact::Unsent { receiver },
    };
    facts.push(fact)?;
    Ok(())
}

/// Appends the sent frames between two that are not received later.
fn push_skipped(
    facts: &mut Vec<Fact>,
    sent: &[NumberedFrame],
    skipped: &[bool],
    receiver: u64,
    next: usize,
    number: usize,
) -> Result<(), AllocError>
    ensures { OnOk result (facts.new.items
        ≡ facts.old.items ++ skipped_facts sent.now skipped.now receiver next (number - next)) }
{
    for k in next..number {
        push_if_skipped(facts, sent, skipped, receiver, k)?;
    }
    Ok(())
}

/// Appends a sent frame if it is skipped and not received later.
fn push_if_skipped(
    facts: &mut Vec<Fact>,
    sent: &[NumberedFrame],
    skipped: &[bool],
    receiver: u64,
    number: usize,
) -> Result<(), AllocError>
    ensures { OnOk result (facts.new.items ≡ facts.old.items ++ skipped_fact sent.now skipped.now receiver number) }
{
    if !is_marked(skipped, number) {
        return Ok(());
    }
    let sender = line_of(sent, number);
    facts.push(Fact::Skipped { sender, receiver })?;
    Ok(())
}

/// Returns whether the sent frame with this number is marked.
fn is_marked(marks: &[bool], number: usize) -> bool
    ensures { result ≡ slice_index_or marks.now number false }
{
    number < marks.len() && marks[number]
}

/// Appends what is told of the last received frames, with these lines, which are unknown. `count` frames are sent, and
/// `next` is the number of the next one.
fn push_unknown(
    alloc: Global,
    facts: &mut Vec<Fact>,
    count: usize,
    is_open: bool,
    shown: u64,
    next: usize,
    lines: &[u64],
) -> Result<(), AllocError>
    ensures { OnOk result (facts.new.items ≡ facts.old.items ++ facts_of_unknown count is_open shown next lines.now) }
{
    if is_open && next == count {
        let before = lines_up_to(alloc, lines, shown)?;
        push_unsent(facts, before.as_slice())?;
        let after = lines_after(alloc, lines, shown)?;
        return push_later(facts, after.as_slice());
    }
    if count.saturating_sub(next) >= GIVEN_UP || lines.len() == GIVEN_UP {
        return push_unfound(facts, lines);
    }
    push_unsent(facts, lines)
}

/// Returns the lines up to this one.
fn lines_up_to(alloc: Global, lines: &[u64], last: u64) -> Result<Vec<u64>, AllocError>
    ensures { IfOk result (λ kept. kept.items ≡ filter (λ line. nat_le line last) lines.now) }
{
    let mut kept = Vec::new(alloc);
    for line in lines {
        if *line <= last {
            kept.push(*line)?;
        }
    }
    Ok(kept)
}

/// Returns the lines after this one.
fn lines_after(alloc: Global, lines: &[u64], last: u64) -> Result<Vec<u64>, AllocError>
    ensures { IfOk result (λ kept. kept.items ≡ filter (λ line. nat_lt last line) lines.now) }
{
    let mut kept = Vec::new(alloc);
    for line in lines {
        if last < *line {
            kept.push(*line)?;
        }
    }
    Ok(kept)
}

/// Appends that the frames of these lines were not sent.
fn push_unsent(facts: &mut Vec<Fact>, lines: &[u64]) -> Result<(), AllocError>
    ensures { OnOk result (facts.new.items ≡ facts.old.items ++ unsents lines.now) }
{
    for line in lines {
        facts.push(Fact::Unsent { receiver: *line })?;
    }
    Ok(())
}

/// Appends that the frames of these lines may be sent later.
fn push_later(facts: &mut Vec<Fact>, lines: &[u64]) -> Result<(), AllocError>
    ensures { OnOk result (facts.new.items ≡ facts.old.items ++ laters lines.now) }
{
    if let Some(first) = lines.first() {
        facts.push(Fact::Later {
            receiver: *first,
            received: lines.len() as u64,
        })?;
    }
    Ok(())
}

/// Appends that the frames of these lines are not found.
fn push_unfound(facts: &mut Vec<Fact>, lines: &[u64]) -> Result<(), AllocError>
    ensures { OnOk result (facts.new.items ≡ facts.old.items ++ unfounds lines.now) }
{
    if let Some(first) = lines.first() {
        facts.push(Fact::Unfound { receiver: *first })?;
    }
    Ok(())
}
