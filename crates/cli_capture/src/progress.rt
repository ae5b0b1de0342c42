//! Whether more is told of a connection.

ghost use Rattle.std.specs.Prelude.{◌≡◌};
ghost use Rattle.cli_capture.specs.Progress.{course_behind, lack_behind};

use capture_errors::Shortfall;
use capture_log::LogResult;
use capture_tcp::{Connection, Ending};

/// Whether more of a connection is told, or what it lacks.
#[derive(Clone, Copy)]
pub enum Progress {
    Proceeds,
    Over(Option<Shortfall>),
}

impl Progress {
    /// Whether more is told behind what was heard of a packet.
    pub fn subsequent(reception: LogResult, packet: u64) -> Progress
        ensures { result ≡ course_behind reception packet }
    {
        match reception {
            LogResult::Proceeds => Progress::Proceeds,
            LogResult::Down => Progress::Over(None),
            LogResult::Length => Progress::Over(Some(Shortfall::Length(packet))),
        }
    }
}

/// What a connection has come to with a packet: more may follow, or it has ended, and may lack something.
#[derive(Drop)]
pub enum Followed {
    Proceeds(Connection),
    BothLogs(Option<Shortfall>),
}

/// Returns what a connection lacks, by how what is told of it ends, where something may be missing behind it.
pub fn lack_behind(ending: Ending, missing: Option<Shortfall>) -> Option<Shortfall>
    ensures { result ≡ lack_behind ending missing }
{
    match ending {
        Ending::Closed => None,
        Ending::Complete => missing,
        Ending::Lost(packet) => Some(Shortfall::Lost(packet)),
        Ending::Differs(packet) => Some(Shortfall::Differs(packet)),
    }
}
