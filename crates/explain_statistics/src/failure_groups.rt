//! Groups of similar failures: the first failures of a group are written in full, and the others are counted.

ghost use Rattle.std.specs.Prelude.{◌≡◌, ◌≤◌, ◌<◌, ◌∷◌, [], ℕ, List, None, length, nat_eq, IfOk, OnOk, IfSome, IfNone};
ghost use Rattle.indexmap.specs.IndexMap.{get, values, index_map_len};
ghost use Rattle.explain_statistics.specs.FailureGroups.{Fault, fault_at, lines_of, IsGroup, HasGroups, IsReported, IsRest};

use explain_lines::Rest;
use hsms_log::Why;
use indexmap::IndexMap;
use indexmap::map::Values;
use std::alloc::{AllocError, Global};

// The number of failures of a group that are written in full.
const WHOLE: u64 = 3;

/// The maximum number of groups. A failure that would start a further group is written in full.
pub const MOST_GROUPS: usize = 256;

/// Similar failures: their reason, their number so far, and the lines of the first and of the last.
#[derive(Clone, Copy)]
pub struct Group {
    pub why: Why,
    pub count: u64,
    pub first: u64,
    pub last: u64,
}

/// The groups of the failures so far, in the order of their first failures.
pub struct Groups {
    pub items: IndexMap<u64, Group>,
}

// Written out so that a proof has one step for a dropped value, not one for each field.
impl Drop for Groups {
    fn drop(self) {
        let Groups { items } = self;
        drop(items);
    }
}

impl Group {
    // Creates the group of a first failure.
    fn of(why: Why, line: u64) -> Group
        ensures { IsGroup (line ∷ []) result }
    {
        Group {
            why,
            count: 1,
            first: line,
            last: line,
        }
    }

    // Returns the group with one more failure.
    fn with(self, line: u64) -> Group
        ensures { (lines : List ℕ) → IsGroup lines self → IsGroup (line ∷ lines) result }
    {
        Group {
            count: self.count.saturating_add(1),
            last: line,
            ..self
        }
    }

    // Returns the line of the first failure if the last failure refers to it.
    fn like(self) -> Option<u64>
        ensures { (groups : ℕ) (lines : List ℕ) → IsGroup lines self → IsReported groups lines result }
    {
        if self.count > WHOLE {
            Some(self.first)
        } else {
            None
        }
    }

    /// Returns the failures that were not written in full. `None` if all were.
    pub fn rest(self) -> Option<Rest>
        ensures rest { IfSome result (λ rest. (lines : List ℕ) → IsGroup lines self → IsRest lines rest) }
        ensures why { IfSome result (λ rest. rest.why ≡ self.why) }
        ensures none { IfNone result ((lines : List ℕ) → IsGroup lines self → length lines ≤ 3) }
    {
        if self.count <= WHOLE {
            return None;
        }
        Some(Rest {
            why: self.why,
            count: self.count - WHOLE,
            line: self.first,
            last: self.last,
        })
    }
}

impl Groups {
    /// Creates an empty set of groups.
    pub fn new(alloc: Global) -> Groups
        ensures { HasGroups [] result.items }
    {
        Groups {
            items: IndexMap::new(alloc),
        }
    }

    /// Counts a failure of this kind at a line. Returns the line to which it refers, or `None` if it is written in
    /// full.
    pub fn count(&mut self, sort: u64, why: Why, line: u64) -> Result<Option<u64>, AllocError>
        ensures groups { OnOk result ((faults : List Fault) → HasGroups faults self.old.items
            → HasGroups (fault_at sort line ∷ faults) self.new.items) }
        ensures shown_line { IfOk result (λ like. (faults : List Fault) → HasGroups faults self.old.items
            → IsReported (index_map_len self.old.items) (lines_of sort (fault_at sort line ∷ faults)) like) }
        ensures more { OnOk result (index_map_len self.old.items ≤ index_map_len self.new.items) }
    {
        match self.grown(sort, why, line) {
            Some(group) => {
                self.items.insert(sort, group)?;
                Ok(group.like())
            }
            None => Ok(None),
        }
    }

    /// Returns an iterator over the groups.
    pub fn iter(&self) -> Values<'_, u64, Group>
        ensures { result ≡ values self.now.items }
    {
        self.items.values()
    }

    // Returns the group of the kind with one more failure. `None` if there is no such group and no space for one.
    fn grown(&self, sort: u64, why: Why, line: u64) -> Option<Group>
        ensures grown { IfSome result (λ group. (faults : List Fault) → HasGroups faults self.now.items
            → IsGroup (lines_of sort (fault_at sort line ∷ faults)) group) }
        ensures room { IfSome result (λ group. get nat_eq self.now.items sort ≡ None → index_map_len self.now.items < 256) }
        ensures none { IfNone result (get nat_eq self.now.items sort ≡ None) }
        ensures full { IfNone result (256 ≤ index_map_len self.now.items) }
    {
        match self.items.get(&sort) {
            Some(group) => Some(group.with(line)),
            None => self.begun(why, line),
        }
    }

    // Returns the group of a first failure, if there is space for it.
    fn begun(&self, why: Why, line: u64) -> Option<Group>
        ensures group { IfSome result (λ group. IsGroup (line ∷ []) group) }
        ensures room { IfSome result (λ group. index_map_len self.now.items < 256) }
        ensures full { IfNone result (256 ≤ index_map_len self.now.items) }
    {
        if self.items.len() < MOST_GROUPS {
            Some(Group::of(why, line))
        } else {
            None
        }
    }
}
