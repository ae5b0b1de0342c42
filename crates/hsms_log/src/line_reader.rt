//! A text that is read in chunks, and checked line by line.

ghost use Rattle.std.specs.Prelude.{IfOk};
ghost use Rattle.hsms_log.specs.Verdict.{HasAuditVerdict as IsVerdictOn};

use crate::audit_state::LineChecker;
use crate::line::{split_at_first, without_carriage_return};
use crate::ranges::entry_is_in_range;
use crate::verdict::{Verdict, Why};
use hsms_machine::Entry;
use std::alloc::{AllocError, Global};
use std::marker::Model;

/// Checks a text that comes in chunks. The lines that have ended are checked. The bytes of an unfinished line are
/// buffered, at most one more than the line's limit.
pub struct LineReader {
    line_checker: LineChecker,
    held: Vec<u8>,
}

// Written out so that a proof has one step for a dropped value, not one for each of its parts.
impl Drop for LineReader {
    fn drop(self) {
        let LineReader { line_checker, held } = self;
        drop(line_checker);
        drop(held);
    }
}

impl Model for LineReader {
    ghost use Rattle.std.specs.Prelude.{◌≤◌, ◌+◌, length};
    ghost use Rattle.hsms_log.specs.LineReader.{Reading};
    ghost use Rattle.hsms_log.specs.AuditState.{limit_after};

    ghost Value = { Reading };

    ghost view = { λ r. record { line_checker = r.line_checker; held = r.held.items } };

    ghost invariant = { λ r. length r.held.items ≤ limit_after r.line_checker.session + 1 };
}

impl LineReader {
    ghost use Rattle.std.specs.Prelude.{◌≡◌, ◌↔◌, ◌+◌, ◌-◌, ◌<◌, ◌≤◌, ◌^◌, ◌++◌, [], ◌∷◌, List, ℕ, None, Ok, IfOk, IfSome, IsSome, IsTrue, length};
    ghost use Rattle.hsms_log.specs.Lines.{HasNone, IsOverlong};
    ghost use Rattle.hsms_log.specs.Verdict.{HasAuditVerdict};
    ghost use Rattle.hsms_log.specs.AuditState.{Allows, limit_after};
    ghost use Rattle.hsms_log.specs.LineReader.{StateInvariant, FailsAs};
    ghost use Rattle.hsms_log.specs.InnerLineReader.{EndsLine, IsFailure};
    ghost use Rattle.hsms_log.specs.LineFormat.{IsComment, entry_line};

    /// Creates a reader that has read nothing.
    pub fn new(alloc: Global) -> LineReader
        ensures consistent { StateInvariant result [] }
        ensures none { result.line_checker.tally.lines ≡ 0 }
    {
        LineReader {
            line_checker: LineChecker::new(alloc),
            held: Vec::new(alloc),
        }
    }

    /// Processes the next bytes. If a line of them fails, it stops there and returns the failure. A line fails as soon
    /// as it has ended, or is too long however it continues.
    pub fn take(&mut self, alloc: Global, octets: &[u8]) -> Result<Option<Verdict>, AllocError>
        requires { self.old.line_checker.tally.lines + length octets.now < 2 ^ 64 - 1 }
        ensures consistent { result ≡ Ok None → (text : List ℕ) → StateInvariant self.old text → StateInvariant self.new (text ++ octets.now) }
        ensures room { result ≡ Ok None → self.new.line_checker.tally.lines ≤ self.old.line_checker.tally.lines + length octets.now }
        ensures failure { IfOk result (λ answer. IfSome answer IsFailure) }
        ensures fails { IfOk result (λ answer. IfSome answer (λ verdict. (text : List ℕ) → StateInvariant self.old text → FailsAs (text ++ octets.now) verdict)) }
    {
        let mut rest = octets;
        while let Some((part, more)) = split_at_first(rest, b'\n') {
            if let Some(why) = self.end_line(alloc, part)? {
                return Ok(Some(self.line_checker.failure(why)));
            }
            rest = more;
        }
        if let Some(why) = self.hold(rest)? {
            return Ok(Some(self.line_checker.failure(why)));
        }
        Ok(None)
    }

    /// Checks an entry in place of its line. Returns the failure, if it fails.
    pub fn entry(&mut self, entry: &Entry) -> Result<Option<Verdict>, AllocError>
        requires room { self.old.line_checker.tally.lines < 2 ^ 64 - 1 }
        requires between { self.old.held ≡ [] }
        requires allowed { Allows self.old.line_checker.session entry.now }
        ensures consistent { result ≡ Ok None → (text : List ℕ) → StateInvariant self.old text → StateInvariant self.new (text ++ (entry_line entry.now ++ 10 ∷ [])) }
        ensures number { result ≡ Ok None → self.new.line_checker.tally.lines ≡ self.old.line_checker.tally.lines + 1 }
        ensures failure { IfOk result (λ answer. IfSome answer IsFailure) }
        ensures fails { IfOk result (λ answer. IfSome answer (λ verdict. (text : List ℕ) → StateInvariant self.old text → FailsAs (text ++ (entry_line entry.now ++ 10 ∷ [])) verdict)) }
    {
        entry_is_in_range(entry);
        if let Some(why) = self.line_checker.entry(entry)? {
            return Ok(Some(self.line_checker.failure(why)));
        }
        Ok(None)
    }

    /// Returns whether an entry can be checked in place of its line.
    pub fn allows(&self, entry: &Entry) -> bool
        ensures { IsTrue result ↔ (self.now.held ≡ []) × Allows self.now.line_checker.session entry.now }
    {
        self.held.is_empty() && self.line_checker.allows(entry)
    }

    /// Processes the line of a comment.
    pub fn comment(&mut self)
        requires room { self.old.line_checker.tally.lines < 2 ^ 64 - 1 }
        requires between { self.old.held ≡ [] }
        requires settings { IsSome self.old.line_checker.session }
        ensures consistent { (text comment : List ℕ) → IsComment comment → StateInvariant self.old text → StateInvariant self.new (text ++ (comment ++ 10 ∷ [])) }
        ensures number { self.new.line_checker.tally.lines ≡ self.old.line_checker.tally.lines + 1 }
    {
        self.line_checker.comment();
    }

    /// Returns whether the settings were read, and no line has begun since the last one ended.
    pub fn is_between(&self) -> bool
        ensures { IsTrue result ↔ (self.now.held ≡ []) × IsSome self.now.line_checker.session }
    {
        self.held.is_empty() && self.line_checker.session.is_some()
    }

    /// Checks the line that ends with this part. If nothing is buffered, the line is checked in place.
    fn end_line(&mut self, alloc: Global, part: &[u8]) -> Result<Option<Why>, AllocError>
        requires room { self.old.line_checker.tally.lines < 2 ^ 64 - 1 }
        requires part { HasNone 10 part.now }
        ensures { IfOk result (EndsLine self.old self.new part.now) }
    {
        if self.held.is_empty() {
            return self.line_checker.line(alloc, without_carriage_return(part));
        }
        if let Some(why) = self.hold(part)? {
            return Ok(Some(why));
        }
        let answer = self
            .line_checker
            .line(alloc, without_carriage_return(&self.held));
        self.held.clear();
        answer
    }

    /// Buffers more bytes of the line, unless it is then too long, however it continues.
    fn hold(&mut self, part: &[u8]) -> Result<Option<Why>, AllocError>
        ensures line_checker { self.new.line_checker ≡ self.old.line_checker }
        ensures held { result ≡ Ok None → self.new.held ≡ self.old.held ++ part.now }
        ensures can_continue { result ≡ Ok None → IsOverlong (limit_after self.old.line_checker.session) self.new.held → ⊥ }
        ensures overlong { IfOk result (λ answer. IfSome answer (λ why. (why ≡ Why.Unreadable)
            × IsOverlong (limit_after self.old.line_checker.session) (self.old.held ++ part.now))) }
    {
        let limit = self.line_checker.line_limit();
        if self.held.len() + part.len() > limit + 1 {
            return Ok(Some(Why::Unreadable));
        }
        self.held.extend_from_slice(part)?;
        if self.held.len() == limit + 1 && self.held[limit] != b'\r' {
            return Ok(Some(Why::Unreadable));
        }
        Ok(None)
    }

    /// Returns the verdict if the text ends here.
    pub fn finish(self, alloc: Global) -> Result<Verdict, AllocError>
        requires { self.line_checker.tally.lines < 2 ^ 64 - 1 }
        ensures { IfOk result (λ verdict. (text : List ℕ) → StateInvariant self text → HasAuditVerdict text verdict) }
    {
        let LineReader {
            mut line_checker,
            held,
        } = self;
        if held.is_empty() {
            return Ok(line_checker.verdict());
        }
        if let Some(why) = line_checker.line(alloc, without_carriage_return(&held))? {
            return Ok(line_checker.failure(why));
        }
        Ok(line_checker.verdict())
    }
}

/// Returns the verdict on the text of a log, which is in memory completely.
pub fn audit_text(alloc: Global, text: &[u8]) -> Result<Verdict, AllocError>
    ensures { IfOk result (IsVerdictOn text.now) }
{
    let mut reader = LineReader::new(alloc);
    match reader.take(alloc, text)? {
        Some(failure) => Ok(failure),
        None => reader.finish(alloc),
    }
}
