//! Check and output of one log line.

ghost use Rattle.std.specs.Prelude.{◌<◌, ◌++◌, ◌∷◌, [], ℕ, List, OnOk, IfOk};
ghost use Rattle.hsms_log.specs.LineFormat.{line_limit, settings_limit};
ghost use Rattle.cli_explain.specs.InnerFirstFailureOutput.{KeepsShown};
ghost use Rattle.cli_explain.specs.InnerLinesProcessed.{IsShown, KnownAfter, ProcessedAfter, UnjudgedAfter, limit_at};

use crate::audit_state::Stage;
use crate::report::Report;
use explain_lines::{ExplainedLine, carried_by, limit_of};
use explain_session::Known;
use hsms_log::{read_settings, unreadable_settings};
use std::alloc::{AllocError, Global};

/// Checks and writes a line. A line that is too long may be passed in part. `octets` is memory for the bytes of its
/// frame, reused from line to line.
pub fn emit_line(
    alloc: Global,
    stage: &mut Stage,
    octets: &mut Vec<u8>,
    report: &mut Report,
    line: &[u8],
) -> Result<(), AllocError>
    ensures shown_line { OnOk result ((before : List (List ℕ)) (real : List ℕ) → IsShown (limit_at stage.old) real line.now
        → ProcessedAfter stage.old report.old.tally before → ProcessedAfter stage.new report.new.tally (before ++ real ∷ [])) }
    ensures shown { OnOk result (KeepsShown report.old report.new) }
{
    match stage {
        Stage::Checked(known) => later_line(alloc, known, octets, report, line),
        Stage::Unjudged(before) => {
            let so_far = *before;
            step_unjudged(alloc, stage, report, so_far, line)
        }
    }
}

// Writes the first line, or a line after an unreadable first line, and steps to the state after it. It is a function of its
// own: the new state takes 2 kB of stack, which `emit_line` would clear for each line.
fn step_unjudged(
    alloc: Global,
    stage: &mut Stage,
    report: &mut Report,
    so_far: u64,
    line: &[u8],
) -> Result<(), AllocError>
    ensures shown_line { OnOk result ((before : List (List ℕ)) (real : List ℕ) → IsShown settings_limit real line.now
        → UnjudgedAfter so_far report.old.tally before → ProcessedAfter stage.new report.new.tally (before ++ real ∷ [])) }
    ensures shown { OnOk result (KeepsShown report.old report.new) }
{
    *stage = unjudged_line(alloc, report, so_far, line)?;
    Ok(())
}

// Writes the first line, or a line after an unreadable first line.
fn unjudged_line(
    alloc: Global,
    report: &mut Report,
    so_far: u64,
    line: &[u8],
) -> Result<Stage, AllocError>
    ensures shown_line { IfOk result (λ stage. (before : List (List ℕ)) (real : List ℕ) → IsShown settings_limit real line.now
        → UnjudgedAfter so_far report.old.tally before → ProcessedAfter stage report.new.tally (before ++ real ∷ [])) }
    ensures shown { OnOk result (KeepsShown report.old report.new) }
{
    if so_far > 0 {
        further_line(alloc, report, so_far, line)
    } else {
        first_line(alloc, report, line)
    }
}

// Writes a line after an unreadable first line.
fn further_line(
    alloc: Global,
    report: &mut Report,
    so_far: u64,
    line: &[u8],
) -> Result<Stage, AllocError>
    ensures shown_line { IfOk result (λ stage. (before : List (List ℕ)) (real : List ℕ) → 0 < so_far
        → UnjudgedAfter so_far report.old.tally before → ProcessedAfter stage report.new.tally (before ++ real ∷ [])) }
    ensures shown { OnOk result (KeepsShown report.old report.new) }
{
    let number = so_far.saturating_add(1);
    report.notes.clear();
    report.submit(alloc, ExplainedLine::plain(number, line), 0)?;
    Ok(Stage::Unjudged(number))
}

// Writes the first line.
fn first_line(alloc: Global, report: &mut Report, line: &[u8]) -> Result<Stage, AllocError>
    ensures shown_line { IfOk result (λ stage. (before : List (List ℕ)) (real : List ℕ) → IsShown settings_limit real line.now
        → UnjudgedAfter 0 report.old.tally before → ProcessedAfter stage report.new.tally (before ++ real ∷ [])) }
    ensures shown { OnOk result (KeepsShown report.old report.new) }
{
    report.notes.clear();
    match read_settings(line) {
        Some(settings) => {
            report.emit_ends(settings);
            report.submit(alloc, ExplainedLine::plain(1, line), 0)?;
            let with_lists = report.has_lists();
            Ok(Stage::Checked(Known::new(alloc, settings, with_lists)))
        }
        None => {
            report.note_unreadable(unreadable_settings(line))?;
            report.submit(alloc, ExplainedLine::plain(1, line), 0)?;
            Ok(Stage::Unjudged(1))
        }
    }
}

// Checks and writes a line after the first.
fn later_line(
    alloc: Global,
    known: &mut Known,
    octets: &mut Vec<u8>,
    report: &mut Report,
    line: &[u8],
) -> Result<(), AllocError>
    ensures shown_line { OnOk result ((before : List (List ℕ)) (real : List ℕ) → IsShown (line_limit known.old.settings.max) real line.now
        → KnownAfter known.old report.old.tally before → KnownAfter known.new report.new.tally (before ++ real ∷ [])) }
    ensures shown { OnOk result (KeepsShown report.old report.new) }
{
    let max = known.settings.max();
    known.repaired_session.next_line();
    let carried = carried_by(line, max, octets)?;
    report.judge(alloc, known, carried)?;
    let shown_line = ExplainedLine {
        number: known.repaired_session.line(),
        octets: line,
        limit: limit_of(max),
        carried,
    };
    report.submit(alloc, shown_line, max)
}
