//! The lines of the failed requests of a pair of connections.

ghost use Rattle.std.specs.Prelude.{◌≡◌, ◌++◌, codes, OnOk, string_bytes};
ghost use Rattle.cli_compare.specs.FailureLines.{answered_name as name_of_answer, beginning_words, cause_word as word_of_cause, cause_words, detail_words, failure_line, failure_lines, line_details, name_words, number_words, outcome_word as word_of_outcome, primary_words, received_name as name_of_receipt, request_words, system_words, time_details};

use hsms_compare_causes::{FailedRequest, FailureCause, OwnOutcome};
use hsms_frame::{Header, Kind, kind};
use std::alloc::{AllocError, Global};

/// Appends the lines of the failed requests that an end sent.
pub fn push_failures(
    alloc: Global,
    text: &mut String,
    end: &str,
    failures: &[FailedRequest],
) -> Result<(), AllocError>
    ensures { OnOk result (string_bytes text.new ≡ string_bytes text.old ++ failure_lines end.now failures.now) }
{
    for failed in failures {
        push_failure(alloc, text, end, failed)?;
    }
    Ok(())
}

/// Appends the line of a failed request.
#[tactic(auto, unfolding(crate::specs::FailureLines::failure_line))]
fn push_failure(
    alloc: Global,
    text: &mut String,
    end: &str,
    failed: &FailedRequest,
) -> Result<(), AllocError>
    ensures { OnOk result (string_bytes text.new ≡ string_bytes text.old ++ failure_line end.now failed.now) }
{
    push_beginning(text, end, failed)?;
    push_name(alloc, text, failed.request)?;
    push_cause(text, failed.cause)?;
    push_details(text, failed)?;
    text.push('\n')
}

/// Appends the outcome of a request, and its line.
#[tactic(auto, unfolding(crate::specs::FailureLines::beginning_words))]
fn push_beginning(text: &mut String, end: &str, failed: &FailedRequest) -> Result<(), AllocError>
    ensures { OnOk result (string_bytes text.new ≡ string_bytes text.old ++ beginning_words end.now failed.now) }
{
    let outcome = outcome_word(failed.outcome);
    let line = failed.line;
    write!(text, "{outcome} {end} line={line} ")
}

/// Appends the kind of a request, and its system bytes.
#[tactic(auto, unfolding(crate::specs::FailureLines::name_words))]
fn push_name(alloc: Global, text: &mut String, request: Header) -> Result<(), AllocError>
    ensures { OnOk result (string_bytes text.new ≡ string_bytes text.old ++ name_words request) }
{
    push_request(text, request)?;
    push_system(alloc, text, request.system)
}

/// Appends the cause of a failure.
#[tactic(auto, unfolding(crate::specs::FailureLines::cause_words))]
fn push_cause(text: &mut String, cause: FailureCause) -> Result<(), AllocError>
    ensures { OnOk result (string_bytes text.new ≡ string_bytes text.old ++ cause_words cause) }
{
    let cause = cause_word(cause);
    write!(text, " cause={cause}")
}

/// Appends the kind of a request.
fn push_request(text: &mut String, request: Header) -> Result<(), AllocError>
    ensures { OnOk result (string_bytes text.new ≡ string_bytes text.old ++ request_words request) }
{
    match kind(request) {
        Kind::SelectReq => text.push_str("select.req"),
        Kind::LinktestReq => text.push_str("linktest.req"),
        Kind::Primary => push_primary(text, request),
        Kind::Reply => push_primary(text, request),
        Kind::SelectRsp => push_primary(text, request),
        Kind::LinktestRsp => push_primary(text, request),
        Kind::Reject => push_primary(text, request),
        Kind::Separate => push_primary(text, request),
        Kind::OtherSType => push_primary(text, request),
        Kind::OtherPType => push_primary(text, request),
    }
}

#[tactic(auto, unfolding(crate::specs::FailureLines::primary_words))]
fn push_primary(text: &mut String, request: Header) -> Result<(), AllocError>
    ensures { OnOk result (string_bytes text.new ≡ string_bytes text.old ++ primary_words request) }
{
    let stream = request.stream();
    let function = request.function();
    write!(text, "S{stream}F{function} W")
}

/// Appends system bytes in hexadecimal, after a space.
fn push_system(alloc: Global, text: &mut String, system: u32) -> Result<(), AllocError>
    ensures { OnOk result (string_bytes text.new ≡ string_bytes text.old ++ system_words system) }
{
    let digits = hex::encode(alloc, system.to_be_bytes())?;
    text.push(' ')?;
    text.push_str(digits.as_str())
}

/// Appends the lines and times of both logs.
fn push_details(text: &mut String, failed: &FailedRequest) -> Result<(), AllocError>
    ensures { OnOk result (string_bytes text.new ≡ string_bytes text.old ++ detail_words failed.now) }
{
    push_receipt(text, failed)?;
    push_times(text, failed)
}

/// Appends the other log's lines that receive a request and answer it.
#[tactic(auto, unfolding(crate::specs::FailureLines::line_details))]
fn push_receipt(text: &mut String, failed: &FailedRequest) -> Result<(), AllocError>
    ensures { OnOk result (string_bytes text.new ≡ string_bytes text.old ++ line_details failed.now) }
{
    push_number(
        text,
        received_name(failed.is_discarded),
        failed.lines.received,
    )?;
    push_number(
        text,
        answered_name(failed.is_rejected),
        failed.lines.answered,
    )
}

/// Appends the times, the line of the reply, and the line that ends the session or the connection.
#[tactic(auto, unfolding(crate::specs::FailureLines::time_details))]
fn push_times(text: &mut String, failed: &FailedRequest) -> Result<(), AllocError>
    ensures { OnOk result (string_bytes text.new ≡ string_bytes text.old ++ time_details failed.now) }
{
    push_number(text, "took", failed.times.took)?;
    push_number(text, "reply", failed.lines.reply)?;
    push_number(text, "after", failed.times.after)?;
    push_number(text, "between", failed.times.between)?;
    push_number(text, "ended", failed.lines.ended)
}

/// Appends a number with its name, if there is one.
fn push_number(text: &mut String, name: &str, number: Option<u64>) -> Result<(), AllocError>
    ensures { OnOk result (string_bytes text.new ≡ string_bytes text.old ++ number_words name.now number) }
{
    match number {
        Some(number) => write!(text, " {name}={number}"),
        None => Ok(()),
    }
}

fn received_name(is_discarded: bool) -> &'static str
    ensures { result.now ≡ name_of_receipt is_discarded }
{
    if is_discarded {
        return "discarded";
    }
    "received"
}

fn answered_name(is_rejected: bool) -> &'static str
    ensures { result.now ≡ name_of_answer is_rejected }
{
    if is_rejected {
        return "rejected";
    }
    "answered"
}

fn outcome_word(outcome: OwnOutcome) -> &'static str
    ensures { result.now ≡ word_of_outcome outcome }
{
    match outcome {
        OwnOutcome::Answered { .. } => "answered",
        OwnOutcome::Late { .. } => "late",
        OwnOutcome::Rejected { .. } => "rejected",
        OwnOutcome::Expired => "expired",
        OwnOutcome::Overdue => "overdue",
        OwnOutcome::Ended => "ended",
        OwnOutcome::Open => "open",
    }
}

fn cause_word(cause: FailureCause) -> &'static str
    ensures { result.now ≡ word_of_cause cause }
{
    match cause {
        FailureCause::Rejected => "rejected",
        FailureCause::RequestSkipped => "request-skipped",
        FailureCause::RequestMissing => "request-missing",
        FailureCause::Discarded => "discarded",
        FailureCause::Ended => "ended",
        FailureCause::Unanswered => "unanswered",
        FailureCause::InTime => "in-time",
        FailureCause::AnsweredLate => "answered-late",
        FailureCause::Peer => "peer",
        FailureCause::Between => "between",
        FailureCause::ReplyMissing => "reply-missing",
        FailureCause::Unknown => "unknown",
    }
}
