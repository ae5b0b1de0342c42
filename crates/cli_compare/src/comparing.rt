//! `hsms compare`: the comparison of two logs, as text.

ghost use Rattle.std.specs.Prelude.{◌≡◌, ◌&&◌};
ghost use Rattle.hsms_frame.specs.Io.{IfRecorded};
ghost use Rattle.cli_compare.specs.Comparison.{ComparesTo, outcome_by as result_by, outcome_of as outcome_for, writes_after};
ghost use Rattle.cli_output.specs.Verdict.{is_pass};

use crate::compare_error::CompareError;
use crate::comparison_text::comparison_text;
use hsms_compare_logs::{LogComparison, PairVerdict};
use hsms_frame::{Sink, Source, give_all};
use hsms_log::Verdict;
use std::alloc::Global;

/// Compares two logs, the host's and equipment's in either order, and writes the comparison. Returns true if both pass
/// and they agree, and false if one fails or they disagree.
///
/// # Errors
///
/// - `Logs`: the logs are not of both ends of a connection (`FirstLine`, `SameRole`, `SameLink`, `Device`, the first of
///   these that holds), a read failed, or an allocation. Nothing is written.
/// - `Write`, if a write failed in this call. A part of the comparison may be written.
/// - `Undecided`, if both pass and it is not decided whether they agree. The comparison is written.
pub fn compare_to<R: Source + Drop, S: Source + Drop, W: Sink>(
    alloc: Global,
    first: R,
    second: S,
    sink: &mut W,
) -> Result<bool, CompareError>
    ensures text { IfRecorded (R.state first).left (λ one. IfRecorded (S.state second).left (λ other.
        ComparesTo one other result (W.state sink.old).written (W.state sink.new).written)) }
    ensures writes { (W.state sink.new).failures ≡ writes_after result (W.state sink.old).failures }
{
    let comparison = LogComparison::of_logs(alloc, first, second)?;
    let text = comparison_text(alloc, &comparison)?;
    give_all(sink, text.as_bytes())?;
    outcome(&comparison)
}

/// Returns the result for a comparison.
fn outcome(comparison: &LogComparison) -> Result<bool, CompareError>
    ensures { result ≡ outcome_for comparison.now }
{
    let passes = both_pass(comparison.host.verdict, comparison.equipment.verdict);
    outcome_by(passes, comparison.verdict())
}

/// Returns whether both verdicts are passes.
fn both_pass(one: Verdict, other: Verdict) -> bool
    ensures { result ≡ (is_pass one && is_pass other) }
{
    match one {
        Verdict::Pass(_) => match other {
            Verdict::Pass(_) => true,
            Verdict::Fail { .. } => false,
        },
        Verdict::Fail { .. } => false,
    }
}

/// Returns the result by whether both logs pass, and the verdict on the pair.
fn outcome_by(passes: bool, verdict: PairVerdict) -> Result<bool, CompareError>
    ensures { result ≡ result_by passes verdict }
{
    if !passes {
        return Ok(false);
    }
    match verdict {
        PairVerdict::Agree => Ok(true),
        PairVerdict::Disagree => Ok(false),
        PairVerdict::Undecided => Err(CompareError::Undecided),
    }
}
