//! How often each rule was broken, the first failure, and the verdict.

ghost use Rattle.std.specs.Prelude.{◌≡◌, ℕ, List, [], OnOk, Some, None};
ghost use Rattle.hsms_frame.specs.declared.header.Header.{Header};
ghost use Rattle.hsms_machine.specs.Entry.{frame_entry};
ghost use Rattle.hsms_log.specs.declared.verdict.Verdict.TheVariants.{Fail};
ghost use Rattle.explain_statistics.specs.EntryCounts.{counts_of, with_entry, with_kind};
ghost use Rattle.explain_statistics.specs.FirstFailure.{failed_at, unjudged_by, verdict_by};
ghost use Rattle.explain_lines.specs.AnnotatedFailure.{either, first_why};
ghost use Rattle.hsms_log.specs.Step.{entry_of_what};

use explain_lines::{Note, name_of};
use hsms_log::{Summary, Verdict, What, Why};
use hsms_machine::Mark;
use std::alloc::{AllocError, Global};
use std::fmt;

/// A failure: the number of its line, from 1, and the reason.
#[derive(Clone, Copy)]
pub struct Failed {
    pub line: u64,
    pub why: Why,
}

/// How often lines failed for each reason, in the order of their first failures; the first failure; and the number of
/// entries.
#[derive(Drop)]
pub struct Tally {
    failures: Vec<(Why, u64)>,
    pub first: Option<Failed>,
    pub entries: Summary,
}

impl Failed {
    fn verdict(self) -> Verdict
        ensures { result ≡ Fail self.line self.why }
    {
        Verdict::Fail {
            line: self.line,
            why: self.why,
        }
    }
}

impl Tally {
    /// Creates a tally without lines.
    pub fn new(alloc: Global) -> Tally
        ensures first { result.first ≡ None }
        ensures entries { result.entries ≡ counts_of [] }
    {
        Tally {
            failures: Vec::new(alloc),
            first: None,
            entries: Summary::default(),
        }
    }

    /// Counts an entry.
    pub fn count_entry(&mut self, what: What)
        ensures entries { (time : ℕ) (text : List ℕ) → self.new.entries ≡ with_entry self.old.entries (entry_of_what time what text) }
        ensures first { self.new.first ≡ self.old.first }
    {
        self.entries.entries = self.entries.entries.saturating_add(1);
        match what {
            What::Frame(mark, _) => self.count_frame(mark),
            What::T3(_) => self.entries.expired = self.entries.expired.saturating_add(1),
            _ => {}
        }
    }

    // Counts a frame with this mark. It is already counted as an entry.
    fn count_frame(&mut self, mark: Mark)
        ensures entries { (time : ℕ) (header : Header) (text : List ℕ) → self.new.entries ≡ with_kind self.old.entries (frame_entry time mark header text) }
        ensures first { self.new.first ≡ self.old.first }
    {
        let counts = self.entries;
        match mark {
            Mark::Sent => self.entries.sent = counts.sent.saturating_add(1),
            Mark::Taken => self.entries.taken = counts.taken.saturating_add(1),
            Mark::Discarded => self.entries.discarded = counts.discarded.saturating_add(1),
        }
    }

    /// Counts the failures among the annotations of a line.
    pub fn count_notes(&mut self, line: u64, notes: &[Note]) -> Result<(), AllocError>
        ensures first { OnOk result (self.new.first ≡ either self.old.first (failed_at line (first_why notes.now))) }
        ensures entries { self.new.entries ≡ self.old.entries }
    {
        for note in notes {
            if let Some(why) = note.why() {
                self.count(line, why)?;
            }
        }
        Ok(())
    }

    // Counts a failure.
    fn count(&mut self, line: u64, why: Why) -> Result<(), AllocError>
        ensures first { self.new.first ≡ either self.old.first (Some (record { line = line; why = why })) }
        ensures entries { self.new.entries ≡ self.old.entries }
    {
        if self.first.is_none() {
            self.first = Some(Failed { line, why });
        }
        count_why(&mut self.failures, why)
    }

    /// Returns the verdict at the end of a checked log: its first failure, or a pass in which `waiting` primaries wait
    /// for a reply.
    pub fn verdict(&self, waiting: u64) -> Verdict
        ensures { result ≡ verdict_by self.now.first self.now.entries waiting }
    {
        match self.first {
            Some(failed) => failed.verdict(),
            None => Verdict::Pass(Summary {
                waiting,
                ..self.entries
            }),
        }
    }

    /// Returns the verdict on a log that was not checked: line 1 is unreadable, or the log has no lines.
    pub fn unjudged_verdict(&self) -> Verdict
        ensures { result ≡ unjudged_by self.now.first }
    {
        match self.first {
            Some(failed) => failed.verdict(),
            None => Verdict::Fail {
                line: 1,
                why: Why::Unreadable,
            },
        }
    }

    /// Returns whether there was no entry.
    pub fn is_empty(&self) -> bool {
        self.entries.entries == 0
    }

    /// Returns the number of failures for each reason.
    pub fn counts(&self) -> &[(Why, u64)] {
        &self.failures
    }

    /// Returns the number of all failures.
    pub fn all(&self) -> u64 {
        let counts = self.failures.iter().map(|(_, count)| *count);
        counts.fold(0u64, |all, count| all.saturating_add(count))
    }
}

impl fmt::Display for Tally {
    fn fmt<W: fmt::Write>(&self, f: &mut fmt::Formatter<W>) -> fmt::Result {
        let all = self.all();
        write!(f, "failures={all}")?;
        for (why, count) in self.failures.iter() {
            let name = name_of(*why);
            write!(f, " {name}={count}")?;
        }
        Ok(())
    }
}

// Counts a failure for this reason.
fn count_why(failures: &mut Vec<(Why, u64)>, why: Why) -> Result<(), AllocError> {
    for (found, count) in failures.iter_mut() {
        if *found == why {
            *count = count.saturating_add(1);
            return Ok(());
        }
    }
    failures.push((why, 1))?;
    Ok(())
}
