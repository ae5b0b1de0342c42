//! What the command writes on what is not audited, and what it returns.

ghost use Rattle.std.specs.Prelude.{◌≡◌, IfErr, OnOk};
ghost use Rattle.capture_errors.specs.Errors.{writes_after};
ghost use Rattle.capture_unjudged.specs.UnjudgedOutput.{IsDone, IsFailure, Returns, line_if};
ghost use Rattle.hsms_frame.specs.Io.{Grows};

use crate::line::line_of;
use crate::unjudged::Unjudged;
use capture_errors::{CaptureError, Rejection};
use hsms_frame::{Sink, give_all};
use std::alloc::Global;

/// Writes the line on what is not audited after the output of `hsms capture`, and returns the result of `hsms capture`.
/// If the logs pass, but anything is not audited that no option excludes, the capture is refused as `NotJudged`. Writes
/// no line if the capture was not read up to where it is audited, or after a failed allocation, read or write.
///
/// # Errors
///
/// Returns the capture's errors, `Refused`, `Write` or `Memory`.
pub fn emit_unjudged<W: Sink>(
    alloc: Global,
    sink: &mut W,
    unjudged: &Unjudged,
    has_port: bool,
    answer: Result<bool, CaptureError>,
) -> Result<bool, CaptureError>
    ensures returns { Returns has_port unjudged.now answer result }
    ensures line { IsDone result → Grows (W.state sink.old).written (W.state sink.new).written (line_if unjudged.now) }
    ensures writes { IsDone answer → (W.state sink.new).failures ≡ writes_after result (W.state sink.old).failures }
{
    match answer {
        Ok(well) => {
            put_line(alloc, sink, unjudged)?;
            if well && unjudged.is_refused(has_port) {
                return Err(CaptureError::Refused(Rejection::NotJudged));
            }
            Ok(well)
        }
        Err(CaptureError::Refused(rejection)) => {
            put_line(alloc, sink, unjudged)?;
            Err(CaptureError::Refused(rejection))
        }
        Err(fault) => Err(fault),
    }
}

// Writes the line, if the capture was read up to where it is audited.
#[tactic(auto, using(crate::proofs::Recursions::line_written))]
fn put_line<W: Sink>(alloc: Global, sink: &mut W, unjudged: &Unjudged) -> Result<(), CaptureError>
    ensures ok { OnOk result (Grows (W.state sink.old).written (W.state sink.new).written (line_if unjudged.now)) }
    ensures err { IfErr result IsFailure }
    ensures writes { (W.state sink.new).failures ≡ writes_after result (W.state sink.old).failures }
{
    if !unjudged.is_complete() {
        return Ok(());
    }
    let line = line_of(alloc, unjudged)?;
    give_all(sink, line.as_bytes())?;
    Ok(())
}
