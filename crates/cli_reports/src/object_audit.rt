//! The audit of a log whose verdict is written as a JSON object.

ghost use Rattle.std.specs.Prelude.{◌≡◌, IfOk, string_bytes};
ghost use Rattle.hsms_frame.specs.Io.{IfRecorded};
ghost use Rattle.hsms_log.specs.Auditing.{HasEnded};
ghost use Rattle.cli_filters.specs.Audit.{AuditsAsText, CountsVerdict, writes_after};
ghost use Rattle.cli_filters.specs.AuditReport.{after_audit};
ghost use Rattle.cli_reports.specs.JsonObject.{object_line};

use crate::json_object::log_object;
use cli_filters::{AuditError, AuditReport};
use hsms_frame::{Sink, Source, give_all};
use hsms_log::{Verdict, audit};
use std::alloc::{AllocError, Global};

/// Audits a log, counts it, and writes its object, as [`verdict_to`](cli_filters::verdict_to) writes its line. If only
/// failing logs are written, the object of a pass is left out.
///
/// # Errors
///
/// Those of [`verdict_to`](cli_filters::verdict_to). The log is not counted.
pub fn write_object<R: Source, W: Sink>(
    report: &mut AuditReport,
    alloc: Global,
    file: &str,
    source: &mut R,
    sink: &mut W,
) -> Result<Verdict, AuditError>
    ensures object { IfRecorded (R.state source.old).left (λ input.
        AuditsAsText (object_line report.old.quiet file.now) input result
        (R.state source.new).left (HasEnded (R.state source.old).ends (R.state source.new).ends)
        (W.state sink.old).written (W.state sink.new).written) }
    ensures reads { CountsVerdict result (R.state source.old) (R.state source.new) }
    ensures writes { (W.state sink.new).failures ≡ writes_after result (W.state sink.old).failures }
    ensures counts { report.new ≡ after_audit report.old result }
{
    let verdict = audit(alloc, source)?;
    let line = line_of(alloc, report.quiet, file, verdict)?;
    give_all(sink, line.as_bytes())?;
    *report = report.counting(verdict);
    Ok(verdict)
}

// Returns what is written of a log.
fn line_of(alloc: Global, quiet: bool, file: &str, verdict: Verdict) -> Result<String, AllocError>
    ensures { IfOk result (λ line. string_bytes line ≡ object_line quiet file.now verdict) }
{
    if quiet && matches!(verdict, Verdict::Pass(_)) {
        return Ok(String::new(alloc));
    }
    log_object(alloc, file, verdict)
}
