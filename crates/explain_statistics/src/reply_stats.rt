//! Outcomes of the primaries that request a reply, and the times of the replies.

ghost use Rattle.std.specs.Prelude.{◌≡◌, ◌<◌, ◌+◌, ◌⊎◌, ◌∷◌, [], ℕ, List, nat_eq, count_by, slice_get, is_some, IsTrue, IfOk, OnOk};
ghost use Rattle.indexmap.specs.IndexMap.{get, values, index_map_len};
ghost use Rattle.explain_statistics.specs.declared.reply_stats.ReplyOutcome.TheVariants.{Answered};
ghost use Rattle.explain_statistics.specs.ReplyStats.{Reply};
ghost use Rattle.explain_statistics.specs.InnerReplyStats.{Deed, Opened, Closed, Ended, IsCounts, HasReplies, counts_at, no_counts};

use indexmap::IndexMap;
use std::alloc::{AllocError, Global};

// The maximum number of kinds that are counted separately.
const MOST: usize = 64;

/// What ended the wait for a reply.
#[derive(Clone, Copy)]
pub enum ReplyOutcome {
    Answered,
    /// Answered, but the clock was set in between.
    Unmeasured,
    Aborted,
    Expired,
    Rejected,
}

/// The number of primaries of a kind, and of each outcome; the minimum and maximum time until the reply, and the line
/// of the reply with the maximum time.
#[derive(Clone, Copy)]
pub struct Counts {
    pub opened: u64,
    pub answered: u64,
    pub unmeasured: u64,
    pub aborted: u64,
    pub expired: u64,
    pub rejected: u64,
    pub least: u64,
    pub greatest: u64,
    pub line: u64,
}

/// The open primaries, by direction and system bytes, and the counts of each kind, in the order of first occurrence.
pub struct Replies {
    open: IndexMap<u64, u32>,
    counts: IndexMap<u32, Counts>,
}

// Written out so that a proof has one step for a dropped value, not one for each field.
impl Drop for Replies {
    fn drop(self) {
        let Replies { open, counts } = self;
        drop(open);
        drop(counts);
    }
}

impl Counts {
    fn new() -> Counts
        ensures { result ≡ no_counts }
    {
        Counts {
            opened: 0,
            answered: 0,
            unmeasured: 0,
            aborted: 0,
            expired: 0,
            rejected: 0,
            least: u64::MAX,
            greatest: 0,
            line: 0,
        }
    }

    // Returns the counts with one more opened primary.
    fn with_opened(self) -> Counts
        ensures { (opened : ℕ) (replies : List Reply) → IsCounts opened replies self → IsCounts (opened + 1) replies result }
    {
        Counts {
            opened: self.opened.saturating_add(1),
            ..self
        }
    }

    // Returns the counts with one more primary, closed after `after` ms, at a line.
    fn with_closed(self, reply_outcome: ReplyOutcome, after: u64, line: u64) -> Counts
        ensures { (opened : ℕ) (replies : List Reply) → IsCounts opened replies self
            → IsCounts opened (record { reply_outcome = reply_outcome; after = after; line = line } ∷ replies) result }
    {
        match reply_outcome {
            ReplyOutcome::Answered => self.with_answered(after, line),
            ReplyOutcome::Unmeasured => Counts {
                unmeasured: self.unmeasured.saturating_add(1),
                ..self
            },
            ReplyOutcome::Aborted => Counts {
                aborted: self.aborted.saturating_add(1),
                ..self
            },
            ReplyOutcome::Expired => Counts {
                expired: self.expired.saturating_add(1),
                ..self
            },
            ReplyOutcome::Rejected => Counts {
                rejected: self.rejected.saturating_add(1),
                ..self
            },
        }
    }

    fn with_answered(self, after: u64, line: u64) -> Counts
        ensures { (opened : ℕ) (replies : List Reply) → IsCounts opened replies self
            → IsCounts opened (record { reply_outcome = Answered; after = after; line = line } ∷ replies) result }
    {
        let is_greatest = self.greatest <= after;
        Counts {
            answered: self.answered.saturating_add(1),
            least: self.least.min(after),
            greatest: if is_greatest { after } else { self.greatest },
            line: if is_greatest { line } else { self.line },
            ..self
        }
    }
}

impl Replies {
    /// Creates statistics without primaries.
    pub fn new(alloc: Global) -> Replies
        ensures { HasReplies [] result.open result.counts }
    {
        Replies {
            open: IndexMap::new(alloc),
            counts: IndexMap::new(alloc),
        }
    }

    /// Records a primary of a kind, which is open under the key.
    pub fn note_opened(&mut self, key: u64, kind: u32) -> Result<(), AllocError>
        ensures { OnOk result ((deeds : List Deed) → HasReplies deeds self.old.open self.old.counts
            → HasReplies (Opened key kind ∷ deeds) self.new.open self.new.counts) }
    {
        let counts = self.counts_of(kind).with_opened();
        self.counts.insert(kind, counts)?;
        self.open.insert(key, kind)?;
        Ok(())
    }

    /// Records that the primary open under the key, if there is one, was closed after `after` ms, at a line. Returns
    /// its kind.
    pub fn note_closed(
        &mut self,
        key: u64,
        reply_outcome: ReplyOutcome,
        after: u64,
        line: u64,
    ) -> Result<Option<u32>, AllocError>
        ensures counted { OnOk result ((deeds : List Deed) → HasReplies deeds self.old.open self.old.counts
            → HasReplies (Closed key reply_outcome after line ∷ deeds) self.new.open self.new.counts) }
        ensures kind { IfOk result (λ kind. kind ≡ get nat_eq self.old.open key) }
    {
        let Some(kind) = self.open.swap_remove(&key) else {
            return Ok(None);
        };
        let counts = self.counts_of(kind).with_closed(reply_outcome, after, line);
        self.counts.insert(kind, counts)?;
        Ok(Some(kind))
    }

    /// Records that a connection starts: primaries that were open before will not be closed.
    pub fn note_ended(&mut self)
        ensures { (deeds : List Deed) → HasReplies deeds self.old.open self.old.counts
            → HasReplies (Ended ∷ deeds) self.new.open self.new.counts }
    {
        self.open.truncate(0);
    }

    // Returns the counts of a kind.
    fn counts_of(&self, kind: u32) -> Counts
        ensures { result ≡ counts_at self.now.counts kind }
    {
        match self.counts.get(&kind) {
            Some(counts) => *counts,
            None => Counts::new(),
        }
    }

    /// Returns `kind` if it is counted or there is space for it, and otherwise `other`.
    pub fn kept_kind(&self, kind: u32, other: u32) -> u32
        ensures kept { (result ≡ kind) ⊎ (result ≡ other) }
        ensures room { index_map_len self.now.counts < 64 → result ≡ kind }
        ensures known { IsTrue (is_some (get nat_eq self.now.counts kind)) → result ≡ kind }
    {
        if self.counts.len() < MOST || self.counts.contains_key(&kind) {
            kind
        } else {
            other
        }
    }

    /// Returns the number of kinds.
    pub fn len(&self) -> usize
        ensures { result ≡ index_map_len self.now.counts }
    {
        self.counts.len()
    }

    /// Returns the kind at this index, from 0, in the order of first occurrence, and its counts.
    pub fn at(&self, place: usize) -> Option<(u32, Counts)>
        ensures { result ≡ slice_get self.now.counts.entries place }
    {
        match self.counts.get_index(place) {
            Some((kind, counts)) => Some((*kind, *counts)),
            None => None,
        }
    }

    /// Returns the number of open primaries of a kind.
    pub fn waiting(&self, kind: u32) -> usize
        ensures { result ≡ count_by (λ other. nat_eq other kind) (values self.now.open) }
    {
        self.open.values().filter(|other| **other == kind).count()
    }
}
