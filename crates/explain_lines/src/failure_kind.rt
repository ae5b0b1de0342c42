//! Failure kinds: what similar failures have in common.

ghost use Rattle.std.specs.Prelude.{◌≡◌, ◌<◌, ◌^◌};
ghost use Rattle.explain_lines.specs.FailureKind.{event_number as number_of_event, frame_number as number_of_frame, failure_kind_number};

use hsms_frame::{Header, Kind, kind};
use hsms_log::What;
use hsms_machine::Rule;

/// The failure kind of unreadable lines. No other failure has it.
pub const UNREADABLE_SORT: u64 = 0;

// The frame numbers are below this.
const FRAMES: u64 = 1 << 36;

/// Returns the kind of a failure as a number. It is equal if the same rule is broken by the same event. For a frame,
/// the event includes its direction, whether it was discarded, its session ID and its kind; for data, also the stream,
/// function and W bit.
pub fn failure_kind_of(rule: Rule, what: What) -> u64
    ensures { result ≡ failure_kind_number rule what }
{
    let frame = match what {
        What::Frame(_, header) => frame_number(header),
        What::Up | What::T3(_) | What::Cut(_) | What::Down => 0,
    };
    ((rule as u64 + 1) * 16 + event_number(what)) * FRAMES + frame
}

fn event_number(what: What) -> u64
    ensures number { result ≡ number_of_event what }
    ensures range { result < 10 }
{
    match what {
        What::Frame(mark, _) => mark as u64,
        What::Up => 3,
        What::T3(_) => 4,
        What::Cut(cause) => 5 + cause as u64,
        What::Down => 9,
    }
}

fn frame_number(header: Header) -> u64
    ensures number { result ≡ number_of_frame header }
    ensures range { result < 2 ^ 36 }
{
    let kind = kind(header);
    let detail = match kind {
        Kind::Primary | Kind::Reply => u64::from(header.byte2) * 256 + u64::from(header.byte3),
        _ => 0,
    };
    (u64::from(header.session) * 16 + kind as u64) * 65536 + detail
}
