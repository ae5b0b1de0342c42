//! The audit of a log that is read from a source.

ghost use Rattle.hsms_frame.specs.Io.{IfRecorded};
ghost use Rattle.hsms_log.specs.Auditing.{AuditsAs, HasEnded, CountsAudit};

use crate::fault::AuditFault;
use crate::line_reader::LineReader;
use crate::verdict::Verdict;
use hsms_frame::Source;
use hsms_machine::laws::{each_entry_has_one_answer, front_of_run_is_run};
use std::alloc::Global;

const ALL_READS: u32 = u32::MAX;

// The maximum number of bytes of one read.
const BLOCK: usize = 4096;

/// Audits a log that is read from a source, with at most 4,294,967,295 reads.
///
/// **`audit` passes a log exactly when its bytes spell a run of the session machine: data flows only while selected,
/// each reply answers exactly one open primary with its stream, system bytes and next function or zero, and every
/// awaited reply came within T3 unless its logged expiry, a reject, or the end of connection or log came first;
/// otherwise it names the first line continuing no run, and why.**
///
/// The meaning of its terms:
///
/// - *its bytes*: what the source had left. `AuditsAs` is claimed for a source that records its bytes, the counts for
///   any source.
/// - *spell*: `LogText` of `specs/Log.antt`, with the lines of `specs/Lines.antt` and the content of a line in
///   `specs/LineFormat.antt`. A text encodes at most one log: `laws::text_encodes_one_log`.
/// - *a run of the session machine*: `IsRun` of `hsms_machine`, `specs/Run.antt`: no entry breaks a rule after those
///   before it.
/// - *data flows only while selected*: `laws::data_flows_while_selected` of `hsms_machine`. Data flows if it is sent or
///   accepted; a discarded frame does not flow.
/// - *answers exactly one open primary*: `laws::each_response_answers_one` of `hsms_machine`, with `answers` and
///   `IsOpen` of its `specs/Transaction.antt`.
/// - *awaited*, *within T3*, *unless .. came first*: `laws::expiry_is_logged_first` and `laws::replies_come_within_t3`
///   of `hsms_machine`. A reply is awaited by the endpoint that sent a primary with the W bit. A reply at exactly T3 is
///   in time (SEMI E5, SEMI E37). After a Separate.req, a cut or a `down` nothing is overdue, and a log may end while
///   replies are awaited.
/// - *passes*, *names the first line, and why*: `Passes` and `Fails` of `specs/Verdict.antt`. Each text has exactly one
///   verdict: `laws::each_text_has_one_verdict`. A text of version 1 has the verdict of the definitions without
///   connections: `laws::version_one_keeps_verdicts`.
///
/// A line is checked as soon as it has ended or is too long. Each read is into a block of 4,096 bytes, and none is made
/// after a failing line was found. The audit holds that block, an unfinished line, and the bytes of a frame, and no
/// more of the log.
///
/// A log passes only if the end of the input was read. `Read` is returned only if a read failed. `Endless` is returned
/// only if all reads were used and none found the end. Both are returned only if no line of what was read fails. If the
/// input did not end, a `Fail` holds for every log that begins with what was read.
///
/// Not claimed: that times and lines are what happened, that a timer expired in time, or that there is enough memory
/// (`Memory`, if an allocation fails).
pub fn audit<R: Source>(alloc: Global, source: &mut R) -> Result<Verdict, AuditFault>
    ensures answer { IfRecorded (R.state source.old).left (λ input. AuditsAs input result (R.state source.new).left
        (HasEnded (R.state source.old).ends (R.state source.new).ends)) }
    ensures counts { CountsAudit 4294967295 result (R.state source.old) (R.state source.new) }
{
    audit_within(alloc, source, ALL_READS)
}

/// Audits a log as [`audit`] does, with at most `reads` reads. If they are used up before the end was found, the result
/// is a failure of what was read, or `Endless`. A last line that no LF ended then fails only if it is already too long,
/// however it continues.
pub fn audit_within<R: Source>(
    alloc: Global,
    source: &mut R,
    reads: u32,
) -> Result<Verdict, AuditFault>
    ensures answer { IfRecorded (R.state source.old).left (λ input. AuditsAs input result (R.state source.new).left
        (HasEnded (R.state source.old).ends (R.state source.new).ends)) }
    ensures counts { CountsAudit reads result (R.state source.old) (R.state source.new) }
{
    front_of_run_is_run();
    each_entry_has_one_answer();
    let mut reader = LineReader::new(alloc);
    let mut block = [0u8; BLOCK];
    for _ in 0..reads {
        let count = source.pull(&mut block)?;
        if count == 0 {
            return Ok(reader.finish(alloc)?);
        }
        if let Some(failure) = reader.take(alloc, &block[..count])? {
            return Ok(failure);
        }
    }
    Err(AuditFault::Endless)
}
