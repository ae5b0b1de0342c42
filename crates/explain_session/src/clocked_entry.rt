//! Check of an entry by the clock of its log.

ghost use Rattle.std.specs.Prelude.{◌≡◌, None, OnOk};
ghost use Rattle.hsms_log.specs.Step.{entry_by};
ghost use Rattle.explain_lines.specs.AnnotatedFailure.{first_why};
ghost use Rattle.explain_session.specs.Clock.{by_clock, clock_after, steady};
ghost use Rattle.explain_session.specs.EntryFailure.{FailsBy};
ghost use Rattle.explain_session.specs.RepairSteps.{RepairsEntry};

use crate::context::Known;
use crate::repair_entry::check_next_entry;
use explain_lines::Note;
use hsms_log::Step;
use std::alloc::{AllocError, Global};

/// Checks the entry of a line as it is logged, by the clock: records the transaction that it closes and each failure, and
/// applies the repairs.
pub fn check_logged_entry(
    alloc: Global,
    known: &mut Known,
    logged: Step,
    text: &[u8],
    notes: &mut Vec<Note>,
) -> Result<(), AllocError>
    ensures check_result { OnOk result (first_why notes.old.items ≡ None → known.old.clock ≡ steady
        → FailsBy known.old.repaired_session (entry_by logged text.now) known.new.repaired_session (first_why notes.new.items)) }
    ensures repairs { OnOk result (RepairsEntry known.old.repaired_session
        (by_clock known.old.repaired_session.tracker.last_time known.old.clock (entry_by logged text.now)) notes.old.items
        known.new.repaired_session notes.new.items) }
    ensures clock { OnOk result (known.new.clock
        ≡ clock_after known.old.settings.t3 known.old.repaired_session.tracker.last_time known.old.clock logged.time) }
    ensures settings { OnOk result (known.new.settings ≡ known.old.settings) }
    ensures line { OnOk result (known.new.repaired_session.line ≡ known.old.repaired_session.line) }
{
    let last = known.repaired_session.last_time();
    let clock = known.clock.at(last, logged.time);
    let later = clock.stepped(known.settings.t3(), last, logged.time);
    let line = known.repaired_session.line();
    let is_changed = later.offset != known.clock.offset;
    known.past.times.note_clock(line, clock.offset, is_changed);
    let step = Step {
        time: clock.audited(logged.time),
        ..logged
    };
    check_next_entry(alloc, known, step, text, notes)?;
    known.clock = later;
    Ok(())
}
