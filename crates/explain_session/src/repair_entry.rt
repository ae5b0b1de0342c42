//! Repair of one log entry: it is checked again until it is accepted or skipped.

ghost use Rattle.std.specs.Prelude.{◌≡◌, ◌∷◌, ℕ, List, [], None, Some, OnOk};
ghost use Rattle.hsms_machine.specs.declared.rule.Rule.TheVariants.{Backwards, T3Overdue};
ghost use Rattle.hsms_machine.specs.Repair.{change_by, entry_of_event, thrown_away as without_taking};
ghost use Rattle.hsms_machine.specs.View.{oldest_of, waiting_of};
ghost use Rattle.hsms_log.specs.declared.step.What.TheVariants.{Up};
ghost use Rattle.hsms_log.specs.declared.verdict.Why.{Why as Reason};
ghost use Rattle.hsms_log.specs.declared.verdict.Why.TheVariants.{Broken};
ghost use Rattle.explain_session.specs.declared.repaired_session.Checked.TheVariants.{Lawful};
ghost use Rattle.explain_lines.specs.AnnotatedFailure.{either, first_why};
ghost use Rattle.explain_session.specs.EntryFailure.{FailsBy};
ghost use Rattle.explain_session.specs.InnerEntryFailure.{why_of};
ghost use Rattle.explain_session.specs.RepairSteps.{RepairsEntry, Notes, changed, recorded_with};
ghost use Rattle.explain_session.specs.InnerRepairSteps.{IsOverdue, LeadsOn, StepsOn, entries_of, most_steps};
ghost use Rattle.hsms_log.specs.Step.{entry_by, entry_of_what};
ghost use Rattle.explain_session.specs.RepairSteps.{SaysRule};

use crate::check_step::check_one_step;
use crate::context::Known;
use crate::hint::expected_of;
use crate::overdue::overdue_of;
use crate::repaired_session::{Checked, Failure, Opening};
use cli_options::sentence;
use explain_lines::{Closing, Failing, Note, Tie, failure_kind_of};
use hsms_frame::{Kind, kind};
use hsms_log::{Step, What, Why};
use hsms_machine::{Mark, RepairAction, Rule};
use std::alloc::{AllocError, Global};

// The maximum number of checks of an entry after the first, in addition to two for each primary that waits.
const STEPS: u128 = 7;

/// Checks the entry of a line, records the transaction that it closes and each failure, and applies the repairs.
pub fn check_next_entry(
    alloc: Global,
    known: &mut Known,
    entry: Step,
    text: &[u8],
    notes: &mut Vec<Note>,
) -> Result<(), AllocError>
    ensures check_result { OnOk result (first_why notes.old.items ≡ None
        → FailsBy known.old.repaired_session (entry_by entry text.now) known.new.repaired_session (first_why notes.new.items)) }
    ensures repairs { OnOk result (RepairsEntry known.old.repaired_session (entry_by entry text.now) notes.old.items
        known.new.repaired_session notes.new.items) }
    ensures settings { OnOk result (known.new.settings ≡ known.old.settings) }
    ensures line { OnOk result (known.new.repaired_session.line ≡ known.old.repaired_session.line) }
{
    let check_result = check_one_step(&mut known.repaired_session, entry, text)?;
    let line = known.repaired_session.line();
    known.past.note_failure(line, entry.what, check_result);
    note(known, entry, text, check_result, notes)?;
    match check_result {
        Checked::Lawful(closed) => take_in(alloc, known, entry, closed),
        Checked::Broken(failure) => repair_broken(
            alloc,
            known,
            entry,
            failure.repair_action,
            text,
            notes,
        ),
    }
}

// Applies the repair of an entry's first failure, and the repairs of the entries checked then. Records the outcome of
// the entry.
fn repair_broken(
    alloc: Global,
    known: &mut Known,
    entry: Step,
    repair_action: RepairAction,
    text: &[u8],
    notes: &mut Vec<Note>,
) -> Result<(), AllocError>
    ensures noted { OnOk result ((why : Reason) → first_why notes.old.items ≡ Some why → first_why notes.new.items ≡ Some why) }
    ensures leads { OnOk result (LeadsOn (most_steps (waiting_of known.old.repaired_session.tracker)) known.old.repaired_session
        (changed (change_by repair_action (entry_by entry text.now)) (entry_by entry text.now) []) notes.old.items
        known.new.repaired_session notes.new.items) }
    ensures settings { OnOk result (known.new.settings ≡ known.old.settings) }
    ensures line { OnOk result (known.new.repaired_session.line ≡ known.old.repaired_session.line) }
{
    let mut pending = Vec::new(alloc);
    go_on(&mut pending, entry, repair_action)?;
    let steps = known.repaired_session.waiting() as u128 * 2 + STEPS;
    for _ in 0..steps {
        let Some(step) = pending.pop() else {
            return Ok(());
        };
        check_next(alloc, known, step, text, &mut pending, notes)?;
    }
    Ok(())
}

// Checks a step before other pending ones, and applies its repair if it fails.
fn check_next(
    alloc: Global,
    known: &mut Known,
    step: Step,
    text: &[u8],
    pending: &mut Vec<Step>,
    notes: &mut Vec<Note>,
) -> Result<(), AllocError>
    ensures noted { OnOk result ((why : Reason) → first_why notes.old.items ≡ Some why → first_why notes.new.items ≡ Some why) }
    ensures steps { OnOk result (StepsOn known.old.repaired_session (entry_by step text.now) (entries_of text.now pending.old.items)
        notes.old.items known.new.repaired_session (entries_of text.now pending.new.items) notes.new.items) }
    ensures settings { OnOk result (known.new.settings ≡ known.old.settings) }
    ensures line { OnOk result (known.new.repaired_session.line ≡ known.old.repaired_session.line) }
{
    let check_result = check_one_step(&mut known.repaired_session, step, text)?;
    let line = known.repaired_session.line();
    known.past.note_failure(line, step.what, check_result);
    note_last(known, step, text, check_result, pending, notes)?;
    match check_result {
        Checked::Lawful(closed) => take_in(alloc, known, step, closed),
        Checked::Broken(failure) => go_on(pending, step, failure.repair_action),
    }
}

// Records the outcome of a step if no other step is pending: then it is the entry of the line, as repaired.
fn note_last(
    known: &Known,
    step: Step,
    text: &[u8],
    check_result: Checked,
    pending: &[Step],
    notes: &mut Vec<Note>,
) -> Result<(), AllocError>
    ensures noted { OnOk result ((why : Reason) → first_why notes.old.items ≡ Some why → first_why notes.new.items ≡ Some why) }
    ensures says { OnOk result (Notes notes.old.items (recorded_with check_result (entries_of text.now pending.now) []) notes.new.items) }
{
    if pending.is_empty() {
        return note(known, step, text, check_result, notes);
    }
    Ok(())
}

// Records a valid step in the history, and in the statistics and lists of the primaries.
fn take_in(
    alloc: Global,
    known: &mut Known,
    step: Step,
    closed: Option<Opening>,
) -> Result<(), AllocError>
    ensures repaired_session { known.new.repaired_session ≡ known.old.repaired_session }
    ensures settings { known.new.settings ≡ known.old.settings }
{
    let line = known.repaired_session.line();
    known.past.note(line, step, closed)?;
    let times = known.past.times;
    let ended = closed.map(|opening| times.wait(opening, step.time));
    known.lists.note(alloc, line, step.what, ended)?;
    known.primaries.note(alloc, line, step.what, ended)
}

// Records the outcome of the entry of a line.
fn note(
    known: &Known,
    step: Step,
    text: &[u8],
    check_result: Checked,
    notes: &mut Vec<Note>,
) -> Result<(), AllocError>
    ensures why { OnOk result (first_why notes.new.items ≡ either (first_why notes.old.items) (why_of check_result)) }
    ensures says { OnOk result (Notes notes.old.items (check_result ∷ []) notes.new.items) }
{
    match check_result {
        Checked::Lawful(closed) => note_closing(known, step, closed, notes),
        Checked::Broken(failure) => {
            notes.push(Note::Fails(failing(known, step, text, failure)))?;
            Ok(())
        }
    }
}

// Records the line that opened the transaction that a step closes, if it closes one.
fn note_closing(
    known: &Known,
    step: Step,
    closed: Option<Opening>,
    notes: &mut Vec<Note>,
) -> Result<(), AllocError>
    ensures why { OnOk result (first_why notes.new.items ≡ first_why notes.old.items) }
    ensures says { OnOk result (Notes notes.old.items (Lawful closed ∷ []) notes.new.items) }
{
    match closed {
        Some(opening) => {
            notes.push(Note::Closes(closing(known, step, opening)))?;
            Ok(())
        }
        None => Ok(()),
    }
}

fn closing(known: &Known, step: Step, opening: Opening) -> Closing
    ensures { result.line ≡ opening.line }
{
    Closing {
        tie: Tie::of(step.what),
        line: opening.line,
        after: known.past.times.wait(opening, step.time).measured(),
    }
}

fn failing(known: &Known, step: Step, text: &[u8], failure: Failure) -> Failing
    ensures why { result.why ≡ Broken failure.rule }
    ensures concerns { result.concerns ≡ failure.concerns }
    ensures repair_action { result.repair_action ≡ Some failure.repair_action }
    ensures sentence { SaysRule failure.rule result.sentence.now }
{
    Failing {
        sort: failure_kind_of(failure.rule, subject_of(known, failure.rule, step.what)),
        why: Why::Broken(failure.rule),
        sentence: sentence_of(step.what, failure.rule),
        concerns: failure.concerns,
        overdue: overdue_of(known, step, failure.rule),
        expected: expected_of(known, step, text, failure.rule),
        repair_action: Some(failure.repair_action),
        offset: known.past.times.offset,
    }
}

// Returns the event by which similar failures are grouped: for `T3Overdue` that of the primary that waits, for
// `Backwards` always the same one, otherwise the one that fails.
fn subject_of(known: &Known, rule: Rule, what: What) -> What
    ensures overdue { rule ≡ T3Overdue → IsOverdue (oldest_of known.now.repaired_session.tracker.sent_data) what result }
    ensures backwards { rule ≡ Backwards → result ≡ Up }
    ensures other { (rule ≡ T3Overdue → ⊥) → (rule ≡ Backwards → ⊥) → result ≡ what }
{
    if rule == Rule::Backwards {
        return What::Up;
    }
    if rule != Rule::T3Overdue {
        return what;
    }
    match known.repaired_session.oldest_data() {
        Some((_, primary)) => What::Frame(Mark::Sent, primary),
        None => what,
    }
}

// Returns the rule text. Primaries by which equipment reports errors (stream 9) must not request a reply, as replies
// must not.
fn sentence_of(what: What, rule: Rule) -> &'static str
    ensures { SaysRule rule result.now }
{
    match what {
        What::Frame(_, header) => {
            if rule == Rule::WBit && kind(header) == Kind::Primary {
                "the W bit is set in a stream 9 message"
            } else {
                sentence(rule)
            }
        }
        _ => sentence(rule),
    }
}

// Pushes what is checked next: the changed step, or the inserted entry and then the step again.
fn go_on(pending: &mut Vec<Step>, step: Step, repair_action: RepairAction) -> Result<(), AllocError>
    ensures { OnOk result ((text : List ℕ) → entries_of text pending.new.items
        ≡ changed (change_by repair_action (entry_by step text)) (entry_by step text) (entries_of text pending.old.items)) }
{
    match repair_action {
        RepairAction::Raise(time) => put(pending, Step { time, ..step }),
        RepairAction::Discard => put(pending, thrown_away(step)),
        RepairAction::ExpireFirst(time, system) => put_first(pending, step, time, What::T3(system)),
        RepairAction::CutFirst(time, cause) => put_first(pending, step, time, What::Cut(cause)),
        RepairAction::DownFirst(time) => put_first(pending, step, time, What::Down),
        RepairAction::LeaveOut => Ok(()),
    }
}

fn put_first(pending: &mut Vec<Step>, step: Step, time: u64, what: What) -> Result<(), AllocError>
    ensures { OnOk result ((text : List ℕ) → entries_of text pending.new.items
        ≡ entry_of_what time what text ∷ entry_by step text ∷ entries_of text pending.old.items) }
{
    put(pending, step)?;
    put(pending, Step { time, what })
}

fn put(pending: &mut Vec<Step>, step: Step) -> Result<(), AllocError>
    ensures { OnOk result ((text : List ℕ) → entries_of text pending.new.items
        ≡ entry_by step text ∷ entries_of text pending.old.items) }
{
    pending.push(step)?;
    Ok(())
}

fn thrown_away(step: Step) -> Step
    ensures { (text : List ℕ) → entry_by result text ≡ entry_of_event step.time (without_taking (entry_by step text).event) }
{
    match step.what {
        What::Frame(Mark::Taken, header) => Step {
            time: step.time,
            what: What::Frame(Mark::Discarded, header),
        },
        _ => step,
    }
}
