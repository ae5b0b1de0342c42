//! `hsms audit`: whether a log passes, as a line.

ghost use Rattle.std.specs.Prelude.{◌≡◌};
ghost use Rattle.hsms_frame.specs.Io.{IfRecorded};
ghost use Rattle.hsms_log.specs.Auditing.{HasEnded};
ghost use Rattle.cli_filters.specs.Audit.{AuditsTo, CountsVerdict, writes_after};

use crate::audit_error::AuditError;
use cli_output::verdict_line;
use hsms_frame::{Sink, Source, give_all};
use hsms_log::{Verdict, audit};
use std::alloc::Global;

/// Writes the line of the verdict on a log, and returns the verdict. The log passes exactly if its bytes encode a run of
/// the session machine. Otherwise the line names the first line that continues no run, and why.
///
/// # Errors
///
/// - `Log`: `Read`, if a read failed in this call. `Endless`, if 4,294,967,295 reads found neither the end nor a failing
///   line. `Memory`. Nothing is written.
/// - `Write`, if a write failed in this call. A part of the line may be written.
pub fn verdict_to<R: Source, W: Sink>(
    alloc: Global,
    source: &mut R,
    sink: &mut W,
) -> Result<Verdict, AuditError>
    ensures line { IfRecorded (R.state source.old).left (λ input. AuditsTo input result (R.state source.new).left
        (HasEnded (R.state source.old).ends (R.state source.new).ends)
        (W.state sink.old).written (W.state sink.new).written) }
    ensures counts { CountsVerdict result (R.state source.old) (R.state source.new) }
    ensures writes { (W.state sink.new).failures ≡ writes_after result (W.state sink.old).failures }
{
    let verdict = audit(alloc, source)?;
    let line = verdict_line(alloc, verdict)?;
    give_all(sink, line.as_bytes())?;
    Ok(verdict)
}
