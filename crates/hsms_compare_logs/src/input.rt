//! The lines of a log that is read from a source and audited.

ghost use Rattle.std.specs.Prelude.{◌≡◌, ◌++◌, ◌∷◌, true, false, List, ℕ, IfOk};
ghost use Rattle.hsms_compare_logs.specs.InnerReader.{TakesLine};

use crate::bounded_audit::BoundedAudit;
use hsms_compare::ReadFault;
use hsms_frame::{Source, drop_front};
use hsms_log::{Verdict, split_at_first};
use std::alloc::{AllocError, Global};

// The maximum number of bytes of one read.
const BLOCK: usize = 4096;

/// A source that is audited, and the bytes of the last block that are not processed.
#[derive(Drop)]
pub struct Input<R> {
    pub source: R,
    pub audit: BoundedAudit,
    pub block: Vec<u8>,
}

/// A line, without its line feed, and how it ends.
#[derive(Drop)]
pub enum InputLine {
    /// A line feed follows.
    Ended(Vec<u8>),
    /// The input ends here.
    Last(Vec<u8>),
    /// It is too long, however it continues.
    TooLong,
}

impl<R: Source + Drop> Input<R> {
    ghost use Rattle.std.specs.Prelude.{◌≡◌, ◌<◌, ◌≤◌, ◌++◌, true, false, ℕ, List, [], Some, IfOk, OnOk};
    ghost use Rattle.hsms_log.specs.Verdict.{HasAuditVerdict};
    ghost use Rattle.hsms_compare_logs.specs.Audited.{ReadsText};
    ghost use Rattle.hsms_compare_logs.specs.Reader.{room};
    ghost use Rattle.hsms_compare_logs.specs.InnerReader.{IsLine, Shrinks};

    /// Reads the next line.
    ///
    /// # Errors
    ///
    /// Returns `Read` if a read fails, `Endless` after 2^62 bytes, or `Memory` if an allocation fails.
    pub fn line(&mut self, alloc: Global, limit: usize) -> Result<InputLine, ReadFault>
        ensures line { IfOk result (λ line. (octets : List ℕ) → (R.state self.old.source).left ≡ Some octets
            → (rest : List ℕ) × ((R.state self.new.source).left ≡ Some rest)
            × IsLine limit (self.old.block.items ++ octets) line (self.new.block.items ++ rest)) }
        ensures text { OnOk result ((text : List ℕ) → ReadsText text self.old.audit (R.state self.old.source).left
            → ReadsText text self.new.audit (R.state self.new.source).left) }
        ensures room { IfOk result (Shrinks (room self.old.block.items self.old.audit) (room self.new.block.items self.new.audit)) }
    {
        let mut held = Vec::new(alloc);
        loop {
            if take_line(&mut self.block, &mut held)? {
                return Ok(InputLine::Ended(held));
            }
            if held.len().saturating_sub(1) > limit {
                return Ok(InputLine::TooLong);
            }
            if !self.pull(alloc)? {
                return Ok(InputLine::Last(held));
            }
        }
    }

    /// Reads the next block, in place of the last one. Returns whether there is one.
    fn pull(&mut self, alloc: Global) -> Result<bool, ReadFault>
        ensures block { IfOk result (λ some. (octets : List ℕ) → (R.state self.old.source).left ≡ Some octets
            → (rest : List ℕ) × ((R.state self.new.source).left ≡ Some rest) × (octets ≡ self.new.block.items ++ rest)) }
        ensures end { IfOk result (λ some. some ≡ false → (octets : List ℕ) → (R.state self.old.source).left ≡ Some octets → octets ≡ []) }
        ensures text { OnOk result ((text : List ℕ) → ReadsText text self.old.audit (R.state self.old.source).left
            → ReadsText text self.new.audit (R.state self.new.source).left) }
        ensures room { OnOk result (room self.new.block.items self.new.audit ≤ room [] self.old.audit) }
        ensures some { IfOk result (λ some. some ≡ true → room [] self.new.audit < room [] self.old.audit) }
    {
        let mut octets = [0u8; BLOCK];
        let Ok(count) = self.source.pull(&mut octets) else {
            return Err(ReadFault::Read);
        };
        let part = &octets[..count];
        self.audit.take(alloc, part)?;
        self.block.clear();
        self.block.extend_from_slice(part)?;
        Ok(count > 0)
    }

    /// Reads the rest of the input, and returns the verdict on the text.
    pub fn finish(self, alloc: Global) -> Result<Verdict, ReadFault>
        ensures { IfOk result (λ verdict. (text : List ℕ) → ReadsText text self.audit (R.state self.source).left → HasAuditVerdict text verdict) }
    {
        let mut input = self;
        while input.pull(alloc)? {}
        let Input {
            source,
            audit,
            block,
        } = input;
        drop(block);
        drop(source);
        audit.finish(alloc)
    }
}

/// Moves the bytes before the first line feed. Returns whether there is one. It is removed.
fn take_line(block: &mut Vec<u8>, held: &mut Vec<u8>) -> Result<bool, AllocError>
    ensures { IfOk result (TakesLine block.old.items held.old.items block.new.items held.new.items) }
{
    let count = match split_at_first(block, b'\n') {
        Some((part, _)) => {
            held.extend_from_slice(part)?;
            part.len() + 1
        }
        None => {
            held.extend_from_slice(block)?;
            return Ok(false);
        }
    };
    drop_front(block, count);
    Ok(true)
}
