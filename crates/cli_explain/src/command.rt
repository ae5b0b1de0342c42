//! The command `hsms explain`: how the lines of a log are related, and why they fail.

ghost use Rattle.std.specs.Prelude.{◌≡◌, ◌<◌, ◌^◌, List, Option, ℕ, IfOk, IfErr, OnOk, OnErr, codes, length};
ghost use Rattle.hsms_frame.specs.Io.{IfRecorded};
ghost use Rattle.hsms_log.specs.Auditing.{HasEnded};
ghost use Rattle.cli_output.specs.Verdict.{is_pass};
ghost use Rattle.cli_output.specs.IoErrors.{CountsFailure, IsReadWriteOrEndless};
ghost use Rattle.cli_explain.specs.Explain.{Concludes, ExplainsTo, GrowsBySome};
ghost use Rattle.cli_explain.specs.InnerExplain.{IsOfExplaining};
ghost use Rattle.cli_explain.specs.FirstFailureOutput.{WritesFirstFailure};
ghost use Rattle.cli_explain.specs.InnerFirstFailureOutput.{IsBeingWritten, IsWritten};
ghost use Rattle.cli_explain.specs.InnerLinesProcessed.{HasProcessed};
ghost use Rattle.cli_options.specs.declared.explain_options.Excerpt.{Excerpt as Asked};

use crate::explainer::Explainer;
use crate::verdict_output::ending;
use cli_options::{Excerpt, OutputFormat, ToolFault};
use cli_output::put;
use hsms_frame::{Sink, Source};
use hsms_log::Verdict;
use hsms_log::laws::each_text_has_one_verdict;
use std::alloc::Global;

// The maximum number of bytes of one read.
const BLOCK: usize = 4096;

/// Checks a log, and writes each of its lines with its number and its time. A frame is written as `hsms show` shows it.
/// Below a line, it writes the line that the entry answers, rejects or reports as expired. It also writes each rule
/// that the entry breaks, with the line involved and the repair with which the log continues. Of similar failures, the
/// first three are written in full, and the others refer to the line of the first. After the lines come the number of
/// these failures, how often each rule was broken, and the outcomes of the primaries that request a reply. The last
/// line is the verdict line of `hsms audit`. Returns whether the log passes. Lines that the filter excludes are checked
/// but not written.
///
/// The log is read once, to its end, in blocks. The output for a block is written before the next read, which may wait,
/// so a line is written once it has arrived. Memory holds at most a block of the log, an incomplete line, a frame's
/// bytes and the lines that the filter needs before failures. Of the output, it holds at most that of a block and of
/// the line that ends in it.
///
/// # Errors
///
/// - `Device`: `Read` or `Write` if a read or write failed in this call, and `Endless` if 4,294,967,295 reads did not
///   find the end. The earlier output is written; after a failed write, part of it.
/// - `Memory`: an allocation failed. The earlier output is written.
pub fn explain_to<R: Source, W: Sink>(
    alloc: Global,
    excerpt: Excerpt,
    source: &mut R,
    sink: &mut W,
) -> Result<bool, ToolFault>
    ensures shown_line { IfRecorded (R.state source.old).left (λ input.
        ExplainsTo excerpt.form input result (R.state source.new).left
        (HasEnded (R.state source.old).ends (R.state source.new).ends)
        (W.state sink.old).written (W.state sink.new).written) }
    ensures first { IfRecorded (R.state source.old).left (λ input.
        OnOk result (WritesFirstFailure excerpt input (W.state sink.old).written (W.state sink.new).written)) }
    ensures word { IfErr result IsReadWriteOrEndless }
    ensures reads { CountsFailure (codes "Read") result (R.state source.old).failures (R.state source.new).failures }
    ensures writes { CountsFailure (codes "Write") result (W.state sink.old).failures (W.state sink.new).failures }
{
    let mut explainer = Explainer::new(alloc, excerpt)?;
    let mut block = [0u8; BLOCK];
    for _ in 0..u32::MAX {
        let count = match source.pull(&mut block) {
            Ok(count) => count,
            Err(_) => return Err(ToolFault::Device("Read")),
        };
        if count == 0 {
            return conclude(alloc, excerpt.form, sink, &mut explainer);
        }
        explainer.take(alloc, &block[..count])?;
        write_buffered(sink, &mut explainer)?;
    }
    Err(ToolFault::Device("Endless"))
}

// Writes what follows the lines, and the verdict.
fn conclude<W: Sink>(
    alloc: Global,
    form: OutputFormat,
    sink: &mut W,
    explainer: &mut Explainer,
) -> Result<bool, ToolFault>
    ensures shown_line { IfOk result (λ passes. (text : List ℕ) → length text < 2 ^ 63 → HasProcessed explainer.old text
        → Concludes form text passes (W.state sink.old).written (W.state sink.new).written) }
    ensures first { OnOk result ((excerpt : Asked) (start : Option (List ℕ)) (text : List ℕ) → length text < 2 ^ 63
        → HasProcessed explainer.old text → IsWritten excerpt start explainer.old.report (W.state sink.old).written
        → WritesFirstFailure excerpt text start (W.state sink.new).written) }
    ensures some { OnErr result (GrowsBySome (W.state sink.old).written (W.state sink.new).written) }
    ensures fault { IfErr result IsOfExplaining }
    ensures writes { CountsFailure (codes "Write") result (W.state sink.old).failures (W.state sink.new).failures }
{
    each_text_has_one_verdict();
    let verdict = explainer.finish(alloc)?;
    write_buffered(sink, explainer)?;
    let ending = ending(alloc, form, verdict)?;
    put(sink, ending.as_bytes())?;
    Ok(passes(verdict))
}

fn passes(verdict: Verdict) -> bool
    ensures { result ≡ is_pass verdict }
{
    match verdict {
        Verdict::Pass(_) => true,
        Verdict::Fail { .. } => false,
    }
}

// Writes the buffered output to the sink.
fn write_buffered<W: Sink>(sink: &mut W, explainer: &mut Explainer) -> Result<(), ToolFault>
    ensures some { GrowsBySome (W.state sink.old).written (W.state sink.new).written }
    ensures reception { OnOk result ((text : List ℕ) → HasProcessed explainer.old text → HasProcessed explainer.new text) }
    ensures tally { explainer.new.report.tally ≡ explainer.old.report.tally }
    ensures shown { OnOk result ((excerpt : Asked) (start : Option (List ℕ))
        → IsBeingWritten excerpt start explainer.old.report (W.state sink.old).written
        → IsWritten excerpt start explainer.new.report (W.state sink.new).written) }
    ensures fault { IfErr result IsOfExplaining }
    ensures writes { CountsFailure (codes "Write") result (W.state sink.old).failures (W.state sink.new).failures }
{
    explainer.report.page.buffer_pending();
    let shown_line = explainer.report.page.octets()?;
    put(sink, shown_line)?;
    explainer.report.page.clear();
    Ok(())
}
