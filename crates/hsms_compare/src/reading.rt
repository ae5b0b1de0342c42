//! Readers of logs.

use hsms_machine::Entry;
use std::alloc::{AllocError, Global};

/// An entry that was read, and its position: its line number.
#[derive(Debug, Drop)]
pub struct NumberedEntry {
    pub position: u64,
    pub entry: Entry,
}

/// Why a log was not read to its end.
#[derive(Clone, Copy, Debug, PartialEq, Eq)]
pub enum ReadFault {
    /// A read failed.
    Read,
    /// All reads were used, and none found the end.
    Endless,
    /// An allocation failed.
    Memory,
}

impl From<AllocError> for ReadFault {
    ghost use Rattle.std.specs.Prelude.{◌≡◌};
    ghost use Rattle.hsms_compare.specs.declared.reading.ReadFault.TheVariants.{Memory};

    ghost from_gives = { λ _ e. e ≡ Memory };

    fn from(_: AllocError) -> ReadFault {
        ReadFault::Memory
    }
}

/// A reader of the log of one connection.
pub trait Entries {
    ghost use Rattle.std.specs.Prelude.{◌≡◌, ◌+◌, ◌≤◌, ℕ, List, [], Bool, IfOk, OnOk, length};
    ghost use Rattle.hsms_compare.specs.Conversation.{Line};
    ghost use Rattle.hsms_compare.specs.Readings.{IsRead, pending};

    /// Holds if these entries are left, and whether the log may have more after them. It holds for no entries if the
    /// reader does not record its input.
    ghost left: { Self → List Line → Bool → Type 0 };

    /// Holds if it reads the log with this text.
    ghost reads: { Self → List ℕ → Type 0 };

    /// No more than this many entries are left, recorded or not.
    ghost most: { Self → ℕ };

    /// Returns the next entry, or `None` at the end.
    fn next(&mut self, alloc: Global) -> Result<Option<NumberedEntry>, ReadFault>
        ensures entry { IfOk result (λ next. (lines : List Line) (more : Bool) → left self.old lines more
            → (rest : List Line) × IsRead lines next rest × left self.new rest more) }
        ensures text { OnOk result ((text : List ℕ) → reads self.old text → reads self.new text) }
        ensures fewer { IfOk result (λ next. length (pending next) + most self.new ≤ most self.old) };

    /// Returns at the end whether the log may have more entries.
    fn is_open(&self) -> bool
        ensures { (more : Bool) → left self.now [] more → result ≡ more };
}
