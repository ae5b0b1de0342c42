//! The result of an audit.

use hsms_machine::Rule;
use std::alloc::AllocError;

/// The content of a log that passes: the number of entries, and how many are of each kind.
#[derive(Clone, Copy, Debug, Default, PartialEq, Eq)]
pub struct Summary {
    /// All entries.
    pub entries: u64,
    /// Frames that were sent.
    pub sent: u64,
    /// Frames that were received and accepted.
    pub taken: u64,
    /// Frames that were received and discarded.
    pub discarded: u64,
    /// Expiries of T3.
    pub expired: u64,
    /// Sent primaries with the W bit that are open at the end of the log.
    pub waiting: u64,
}

impl Summary {
    ghost use Rattle.std.specs.Prelude.{◌≡◌, ◌++◌, OnOk, string_bytes};
    ghost use Rattle.hsms_log.specs.Verdict.{count_text, counts_text};

    /// Appends each count to a text: the text before its name, the name, the text after it, and the number.
    pub fn push_counts(
        &self,
        text: &mut String,
        before: &str,
        subsequent: &str,
    ) -> Result<(), AllocError>
        ensures { OnOk result (string_bytes text.new ≡ string_bytes text.old ++ counts_text before.now subsequent.now self.now) }
    {
        Self::push_count(text, before, "entries", subsequent, self.entries)?;
        Self::push_count(text, before, "sent", subsequent, self.sent)?;
        Self::push_count(text, before, "taken", subsequent, self.taken)?;
        Self::push_count(text, before, "discarded", subsequent, self.discarded)?;
        Self::push_count(text, before, "expired", subsequent, self.expired)?;
        Self::push_count(text, before, "waiting", subsequent, self.waiting)
    }

    fn push_count(
        text: &mut String,
        before: &str,
        name: &str,
        subsequent: &str,
        count: u64,
    ) -> Result<(), AllocError>
        ensures { OnOk result (string_bytes text.new ≡ string_bytes text.old ++ count_text before.now name.now subsequent.now count) }
    {
        write!(text, "{before}{name}{subsequent}{count}")
    }
}

/// Why a line fails.
#[derive(Clone, Copy, Debug, PartialEq, Eq)]
pub enum Why {
    /// The line is not an entry, a comment or an empty line, or exceeds its limit.
    Unreadable,
    /// The line's entry breaks this rule, and no earlier rule.
    Broken(Rule),
}

/// The verdict on the text of a log.
#[derive(Clone, Copy, Debug, PartialEq, Eq)]
pub enum Verdict {
    /// The text encodes settings and a run.
    Pass(Summary),
    /// This line, counted from 1, is the first that fails.
    Fail { line: u64, why: Why },
}
