//! An audit with a maximum number of bytes.

ghost use Rattle.std.specs.Prelude.{◌≡◌, ◌+◌, ◌++◌, ℕ, List, IfOk, length};
ghost use Rattle.hsms_log.specs.Auditor.{HasAtMost, HasProcessed, HasRoom};

use hsms_compare::ReadFault;
use hsms_log::{Auditor, Verdict};
use std::alloc::{AllocError, Global};
use std::marker::Model;

/// The maximum number of bytes of a log: 2^62.
pub const GREATEST: u64 = 4_611_686_018_427_387_904;

/// The audit of a log that is read in chunks. After a failed allocation there is none.
pub struct BoundedAudit {
    auditor: Option<Auditor>,
    taken: u64,
}

// Written out so that a proof has one step for a dropped value, not one for each of its parts.
impl Drop for BoundedAudit {
    fn drop(self) {
        let BoundedAudit { auditor, taken: _ } = self;
        drop(auditor);
    }
}

impl Model for BoundedAudit {
    ghost use Rattle.std.specs.Prelude.{◌≤◌, ◌^◌, IfSome};
    ghost use Rattle.hsms_log.specs.Auditor.{HasAtMost};
    ghost use Rattle.hsms_compare_logs.specs.Audited.{AuditState};

    ghost Value = { AuditState };

    ghost view = { λ a. record { auditor = a.auditor; taken = a.taken } };

    ghost invariant = { λ a. IfSome a.auditor (HasAtMost a.taken) × (a.taken ≤ 2 ^ 62) };
}

impl BoundedAudit {
    ghost use Rattle.std.specs.Prelude.{◌≡◌, ◌+◌, ◌≤◌, ◌^◌, ◌++◌, ℕ, List, [], IfOk, OnOk, length};
    ghost use Rattle.hsms_log.specs.Verdict.{HasAuditVerdict};
    ghost use Rattle.hsms_compare_logs.specs.Audited.{HasAudited};

    /// Creates an audit that has received no text.
    pub fn new(alloc: Global) -> BoundedAudit
        ensures begins { HasAudited result [] }
    {
        BoundedAudit {
            auditor: Some(Auditor::new(alloc)),
            taken: 0,
        }
    }

    /// Processes the next bytes.
    ///
    /// # Errors
    ///
    /// Returns `Endless` after 2^62 bytes, or `Memory` if an allocation fails.
    pub fn take(&mut self, alloc: Global, octets: &[u8]) -> Result<(), ReadFault>
        ensures text { OnOk result ((text : List ℕ) → HasAudited self.old text → HasAudited self.new (text ++ octets.now)) }
        ensures taken { OnOk result (self.new.taken ≡ self.old.taken + length octets.now) }
        ensures within { OnOk result (self.new.taken ≤ 2 ^ 62) }
    {
        let Some(auditor) = self.auditor.take() else {
            return Err(ReadFault::Memory);
        };
        let count = octets.len() as u64;
        if count > GREATEST - self.taken {
            return Err(ReadFault::Endless);
        }
        let next = process(alloc, auditor, octets)?;
        self.taken += count;
        self.auditor = Some(next);
        Ok(())
    }

    /// Returns the verdict on the text, which ends here.
    ///
    /// # Errors
    ///
    /// Returns `Memory` if an allocation fails.
    pub fn finish(self, alloc: Global) -> Result<Verdict, ReadFault>
        ensures { IfOk result (λ verdict. (text : List ℕ) → HasAudited self text → HasAuditVerdict text verdict) }
    {
        let BoundedAudit { auditor, taken: _ } = self;
        match auditor {
            Some(auditor) => Ok(auditor.finish(alloc)?),
            None => Err(ReadFault::Memory),
        }
    }
}

// Passes bytes to an audit.
fn process(alloc: Global, auditor: Auditor, octets: &[u8]) -> Result<Auditor, AllocError>
    requires { HasRoom auditor octets.now }
    ensures reception { IfOk result (λ next. (text : List ℕ) → HasProcessed auditor text → HasProcessed next (text ++ octets.now)) }
    ensures lines { IfOk result (λ next. (n : ℕ) → HasAtMost n auditor → HasAtMost (n + length octets.now) next) }
{
    let mut next = auditor;
    next.take(alloc, octets)?;
    Ok(next)
}
