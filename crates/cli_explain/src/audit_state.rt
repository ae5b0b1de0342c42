//! State of the audit of a log.

ghost use Rattle.std.specs.Prelude.{◌≡◌, ◌≤◌};
ghost use Rattle.cli_explain.specs.InnerLinesProcessed.{limit_at};

use explain_lines::{SETTINGS_LIMIT, limit_of};
use explain_session::Known;

/// Whether the log is checked. It is not before its first line, or if its first line is unreadable. The number is that
/// of the lines so far.
#[derive(Drop)]
pub enum Stage {
    Unjudged(u64),
    Checked(Known),
}

impl Stage {
    /// Returns the maximum length of the next line in bytes, without its line ending.
    pub fn limit(&self) -> usize
        ensures value { result ≡ limit_at self.now }
        ensures small { result ≤ 8589934654 }
    {
        match self {
            Stage::Unjudged(_) => SETTINGS_LIMIT,
            Stage::Checked(known) => limit_of(known.settings.max()),
        }
    }

    /// Returns the number of lines so far.
    pub fn lines(&self) -> u64 {
        match self {
            Stage::Unjudged(lines) => *lines,
            Stage::Checked(known) => known.repaired_session.line(),
        }
    }
}
