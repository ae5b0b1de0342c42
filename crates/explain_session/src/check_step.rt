//! Check of one step.

ghost use Rattle.std.specs.Prelude.{◌≡◌, IfOk, OnOk};
ghost use Rattle.explain_session.specs.RepairedSession.{ChecksAs};
ghost use Rattle.hsms_log.specs.Step.{entry_by};

use crate::repaired_session::{Checked, RepairedSession};
use hsms_log::{Step, What};
use hsms_machine::{Entry, EntryRef, Event};
use std::alloc::AllocError;

/// Checks a step whose frame has this text. A valid step is applied to the session; otherwise nothing changes.
pub fn check_one_step(
    repaired_session: &mut RepairedSession,
    step: Step,
    text: &[u8],
) -> Result<Checked, AllocError>
    ensures check_result { IfOk result (ChecksAs repaired_session.old (entry_by step text.now) repaired_session.new) }
    ensures line { OnOk result (repaired_session.new.line ≡ repaired_session.old.line) }
{
    let Step { time, what } = step;
    match what {
        What::Frame(mark, header) => {
            repaired_session.judge(&EntryRef::of_frame(time, mark, header, text))
        }
        What::Up => check_plain(repaired_session, time, Event::Up),
        What::T3(system) => check_plain(repaired_session, time, Event::T3(system)),
        What::Cut(cause) => check_plain(repaired_session, time, Event::Cut(cause)),
        What::Down => check_plain(repaired_session, time, Event::Down),
    }
}

fn check_plain(
    repaired_session: &mut RepairedSession,
    time: u64,
    event: Event,
) -> Result<Checked, AllocError>
    ensures check_result { IfOk result (ChecksAs repaired_session.old (record { time = time; event = event }) repaired_session.new) }
    ensures line { OnOk result (repaired_session.new.line ≡ repaired_session.old.line) }
{
    let entry = Entry { time, event };
    repaired_session.judge(&entry.as_ref())
}
