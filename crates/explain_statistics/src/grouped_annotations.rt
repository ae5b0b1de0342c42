//! Annotations of a log line as they are written: a failure like earlier ones refers to the first of them.

ghost use Rattle.std.specs.Prelude.{◌≡◌, ◌≤◌, ◌∷◌, [], List, IfOk, IfSome, None, OnOk, true};
ghost use Rattle.indexmap.specs.IndexMap.{index_map_len};
ghost use Rattle.explain_lines.specs.AnnotatedFailure.{first_whole};
ghost use Rattle.explain_statistics.specs.FailureGroups.{Fault, HasGroups};
ghost use Rattle.explain_statistics.specs.GroupedAnnotations.{AreGrouped, NoteIsReported, failure_by, faults_with};
ghost use Rattle.explain_statistics.specs.InnerGroupedAnnotations.{Joins, PutsNote};

use crate::failure_groups::Groups;
use explain_lines::{Failing, FailureGroup, Note};
use std::alloc::AllocError;

/// Replaces `grouped` with the annotations of a line as they are written: a failure that is like earlier failures
/// refers to the line of the first of them.
pub fn group_notes(
    groups: &mut Groups,
    notes: &[Note],
    line: u64,
    grouped: &mut Vec<Note>,
) -> Result<(), AllocError>
    ensures groups { OnOk result ((faults : List Fault) → HasGroups faults groups.old.items
        → HasGroups (faults_with line notes.now faults) groups.new.items) }
    ensures shown_line { OnOk result ((faults : List Fault) → HasGroups faults groups.old.items
        → AreGrouped (index_map_len groups.new.items) line faults notes.now grouped.new.items) }
    ensures first { OnOk result (HasGroups [] groups.old.items → first_whole grouped.new.items ≡ first_whole notes.now) }
{
    grouped.clear();
    for note in notes {
        let shown_line = reported_note(groups, *note, line)?;
        put_note(grouped, shown_line)?;
    }
    Ok(())
}

// Returns an annotation as it is written. A failure is counted.
fn reported_note(groups: &mut Groups, note: Note, line: u64) -> Result<Note, AllocError>
    ensures groups { OnOk result ((faults : List Fault) → HasGroups faults groups.old.items
        → HasGroups (faults_with line (note ∷ []) faults) groups.new.items) }
    ensures shown_line { IfOk result (λ shown_line. (faults : List Fault) → HasGroups faults groups.old.items
        → NoteIsReported (index_map_len groups.new.items) line faults note shown_line) }
    ensures more { OnOk result (index_map_len groups.old.items ≤ index_map_len groups.new.items) }
{
    match note {
        Note::Fails(failing) => {
            let like = groups.count(failing.sort, failing.why, line)?;
            Ok(derived_from(failing, like))
        }
        Note::Closes(_) => Ok(note),
        Note::FailsInGroup(_) => Ok(note),
    }
}

// Returns the failure in full, or as a reference to the line `like`.
fn derived_from(failing: Failing, like: Option<u64>) -> Note
    ensures { result ≡ failure_by failing like }
{
    match like {
        Some(line) => Note::FailsInGroup(FailureGroup {
            why: failing.why,
            line,
            times: 1,
            concerns: failing.concerns,
            repair_action: failing.repair_action,
        }),
        None => Note::Fails(failing),
    }
}

// Appends an annotation. If it refers to the same line as the last one, and both involve no open transaction, they are
// counted in one.
#[tactic(auto, using(crate::proofs::Grouping::puts_first, crate::proofs::Grouping::puts_joined, crate::proofs::Grouping::puts_apart))]
fn put_note(grouped: &mut Vec<Note>, note: Note) -> Result<(), AllocError>
    ensures { OnOk result (PutsNote grouped.old.items note grouped.new.items) }
{
    let Some(last) = grouped.pop() else {
        grouped.push(note)?;
        return Ok(());
    };
    match joined(last, note) {
        Some(both) => grouped.push(both)?,
        None => {
            grouped.push(last)?;
            grouped.push(note)?;
        }
    }
    Ok(())
}

// Returns both annotations as one if both refer to the line of the same earlier failure and involve no open
// transaction.
fn joined(last: Note, note: Note) -> Option<Note>
    ensures { IfSome result (Joins last note) }
{
    let Note::FailsInGroup(failure_group) = last else {
        return None;
    };
    let Note::FailsInGroup(other) = note else {
        return None;
    };
    if are_same_group(failure_group, other) {
        let times = failure_group.times.saturating_add(other.times);
        return Some(Note::FailsInGroup(FailureGroup {
            times,
            ..failure_group
        }));
    }
    None
}

// Returns whether two failures refer to the same line and involve no open transaction.
fn are_same_group(one: FailureGroup, other: FailureGroup) -> bool
    ensures { result ≡ true → (other.why ≡ one.why) × (other.line ≡ one.line) × (one.concerns ≡ None) × (other.concerns ≡ None) }
{
    one.why == other.why && one.line == other.line && involve_none(one, other)
}

fn involve_none(one: FailureGroup, other: FailureGroup) -> bool
    ensures { result ≡ true → (one.concerns ≡ None) × (other.concerns ≡ None) }
{
    one.concerns.is_none() && other.concerns.is_none()
}
