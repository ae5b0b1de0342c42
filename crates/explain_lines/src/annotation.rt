//! Annotations of a log line.

ghost use Rattle.std.specs.Prelude.{◌≡◌, ◌∷◌, [], Some, codes};
ghost use Rattle.std.specs.List.{list_any};
ghost use Rattle.hsms_log.specs.declared.verdict.Why.TheVariants.{Unreadable as CannotBeRead};
ghost use Rattle.explain_lines.specs.declared.expected.Expected.TheVariants.{Form};
ghost use Rattle.explain_lines.specs.AnnotatedFailure.{first_why, is_whole};

use crate::expected::Expected;
use crate::failure_kind::UNREADABLE_SORT;
use crate::phrases::{Closing, Continuation, FailureGroup, Overdue, Put, in_log_times};
use hsms_log::{Unreadable, Why};
use hsms_machine::RepairAction;

/// The text for an unreadable line.
pub const UNREADABLE: &str = "not a valid log line";

/// An annotation of a log line.
#[derive(Clone, Copy)]
pub enum Note {
    /// The entry closes the transaction that another line opened.
    Closes(Closing),
    /// The line fails.
    Fails(Failing),
    /// The line fails like an earlier line.
    FailsInGroup(FailureGroup),
}

impl Note {
    /// Returns why the line fails. `None` if the annotation is no failure, or refers to the line of an earlier one.
    pub fn why(&self) -> Option<Why>
        ensures { result ≡ first_why (self.now ∷ []) }
    {
        match self {
            Note::Fails(failing) => Some(failing.why),
            Note::Closes(_) | Note::FailsInGroup(_) => None,
        }
    }
}

/// A failure of a line. It has its failure kind (`sort`), rule and rule text, the line of the open transaction
/// involved, the request whose timer has expired, a hint, and the repair with the offset of the clock in its times. An
/// unreadable line is skipped.
#[derive(Clone, Copy)]
pub struct Failing {
    pub sort: u64,
    pub why: Why,
    pub sentence: &'static str,
    pub concerns: Option<u64>,
    pub overdue: Option<Overdue>,
    pub expected: Option<Expected>,
    pub repair_action: Option<RepairAction>,
    pub offset: u64,
}

impl Failing {
    /// Returns the failure of an unreadable line, with the reason.
    pub fn unreadable(unreadable: Unreadable) -> Failing
        ensures why { result.why ≡ CannotBeRead }
        ensures sentence { result.sentence.now ≡ codes "not a valid log line" }
        ensures expected { result.expected ≡ Some (Form unreadable) }
    {
        Failing {
            sort: UNREADABLE_SORT,
            why: Why::Unreadable,
            sentence: UNREADABLE,
            concerns: None,
            overdue: None,
            expected: Some(Expected::Form(unreadable)),
            repair_action: None,
            offset: 0,
        }
    }

    /// Returns how the log continues. `utc` selects dates instead of times in ms.
    pub fn continuation(&self, utc: bool) -> Option<Continuation> {
        let is_step = matches!(self.expected, Some(Expected::Clock(_)));
        let repair_action = in_log_times(self.repair_action?, self.offset);
        Some(Continuation {
            repair_action,
            utc,
            is_step,
        })
    }

    /// Returns the line that the hint names.
    pub fn expected_line(&self) -> Option<u64> {
        self.expected?.line()
    }

    /// Returns whether the failure names this line.
    pub fn names(&self, line: u64) -> bool {
        self.concerns == Some(line)
            || self.overdue_line() == Some(line)
            || self.expected_line() == Some(line)
    }

    // Returns the line of the request, or of the connection, whose timer has expired.
    fn overdue_line(&self) -> Option<u64> {
        self.overdue.map(|overdue| overdue.line)
    }

    /// Returns the entry that the repair inserts before the line.
    pub fn put(&self) -> Option<Put> {
        Put::of(in_log_times(self.repair_action?, self.offset))
    }
}

/// Returns whether a failure written in full names this line.
pub fn is_named(notes: &[Note], line: u64) -> bool {
    notes.iter().any(|note| match note {
        Note::Fails(failing) => failing.names(line),
        Note::Closes(_) | Note::FailsInGroup(_) => false,
    })
}

/// Returns whether one of the annotations is a failure written in full.
pub fn has_failure(notes: &[Note]) -> bool
    ensures { result ≡ list_any is_whole notes.now }
{
    notes.iter().any(|note| matches!(note, Note::Fails(_)))
}
