//! An audit of a text that comes in chunks.

ghost use Rattle.std.specs.Prelude.{◌≡◌, ◌↔◌, ◌+◌, ◌++◌, [], ◌∷◌, List, ℕ, IfOk, IsTrue, OnOk, length};
ghost use Rattle.hsms_log.specs.Verdict.{HasAuditVerdict};
ghost use Rattle.hsms_log.specs.Auditor.{CanProcess, HasAtMost, HasProcessed, HasRoom, IsBetween};
ghost use Rattle.hsms_log.specs.LineFormat.{IsComment, entry_line};

use crate::line_reader::LineReader;
use crate::verdict::Verdict;
use hsms_machine::Entry;
use std::alloc::{AllocError, Global};

/// Audits a text that comes in chunks, to its end. It is for programs that also use the chunks for something else. It
/// holds no more of them than [`audit`](crate::audit) does.
#[derive(Drop)]
pub struct Auditor {
    reader: LineReader,
    found: Option<Verdict>,
}

impl Auditor {
    /// Creates an audit that has received no text.
    pub fn new(alloc: Global) -> Auditor
        ensures reception { HasProcessed result [] }
        ensures lines { HasAtMost 0 result }
    {
        Auditor {
            reader: LineReader::new(alloc),
            found: None,
        }
    }

    /// Processes the next bytes.
    ///
    /// # Errors
    ///
    /// Returns an error if an allocation fails. Nothing is specified about an audit that continues after it.
    pub fn take(&mut self, alloc: Global, octets: &[u8]) -> Result<(), AllocError>
        requires room { HasRoom self.old octets.now }
        ensures reception { OnOk result ((text : List ℕ) → HasProcessed self.old text → HasProcessed self.new (text ++ octets.now)) }
        ensures lines { OnOk result ((n : ℕ) → HasAtMost n self.old → HasAtMost (n + length octets.now) self.new) }
    {
        if self.found.is_none() {
            self.found = self.reader.take(alloc, octets)?;
        }
        Ok(())
    }

    /// Processes an entry, in place of the line that [`write_entry`](crate::write_entry) writes for it.
    ///
    /// # Errors
    ///
    /// Returns an error if an allocation fails. Nothing is specified about an audit that continues after it.
    pub fn take_entry(&mut self, entry: &Entry) -> Result<(), AllocError>
        requires room { HasRoom self.old (10 ∷ []) }
        requires can { CanProcess self.old entry.now }
        ensures reception { OnOk result ((text : List ℕ)
            → HasProcessed self.old text → HasProcessed self.new (text ++ (entry_line entry.now ++ 10 ∷ []))) }
        ensures lines { OnOk result ((n : ℕ) → HasAtMost n self.old → HasAtMost (n + 1) self.new) }
    {
        if self.found.is_none() {
            self.found = self.reader.entry(entry)?;
        }
        Ok(())
    }

    /// Returns whether it can process an entry without a line. It can after the settings line, if no line is unfinished
    /// and the settings allow the entry's message. It also can once a line has failed.
    pub fn can_process(&self, entry: &Entry) -> bool
        ensures { IsTrue result ↔ CanProcess self.now entry.now }
    {
        self.found.is_some() || self.reader.allows(entry)
    }

    /// Processes the line of any comment.
    pub fn take_comment(&mut self)
        requires room { HasRoom self.old (10 ∷ []) }
        requires between { IsBetween self.old }
        ensures reception { (text comment : List ℕ)
            → IsComment comment → HasProcessed self.old text → HasProcessed self.new (text ++ (comment ++ 10 ∷ [])) }
        ensures lines { (n : ℕ) → HasAtMost n self.old → HasAtMost (n + 1) self.new }
    {
        if self.found.is_none() {
            self.reader.comment();
        }
    }

    /// Returns whether it can process a comment without a line. It can after the settings line, if no line is
    /// unfinished. It also can once a line has failed.
    pub fn is_between(&self) -> bool
        ensures { IsTrue result ↔ IsBetween self.now }
    {
        self.found.is_some() || self.reader.is_between()
    }

    /// Returns the verdict on each text that begins with the processed bytes, if a line of them fails.
    pub fn failure(&self) -> Option<Verdict>
        ensures { result ≡ self.now.found }
    {
        self.found
    }

    /// Returns the verdict on the text, which ends here: the verdict of [`audit`](crate::audit).
    ///
    /// # Errors
    ///
    /// Returns an error if an allocation fails.
    pub fn finish(self, alloc: Global) -> Result<Verdict, AllocError>
        requires { HasRoom self [] }
        ensures { IfOk result (λ verdict. (text : List ℕ) → HasProcessed self text → HasAuditVerdict text verdict) }
    {
        match self.found {
            Some(verdict) => Ok(verdict),
            None => self.reader.finish(alloc),
        }
    }
}
