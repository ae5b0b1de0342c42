//! Pairs of endpoints, each counted once.

use capture_log::Pair;
use indexmap::IndexSet;
use std::alloc::{AllocError, Global};

// The maximum number of stored pairs. Of further ones, only the fact that there are some is recorded.
const MAX_PAIRS: usize = 4096;

/// Pairs of endpoints, each counted once, whichever end is the active one.
#[derive(Drop)]
pub struct Pairs {
    pairs: IndexSet<Pair>,
    has_more: bool,
}

impl Pairs {
    ghost use Rattle.std.specs.Prelude.{◌≡◌, [], OnOk, false, length};
    ghost use Rattle.capture_unjudged.specs.Sets.{AddsPair};

    /// Returns an empty set.
    pub fn new(alloc: Global) -> Pairs
        ensures none { result.pairs.keys ≡ [] }
        ensures no_more { result.has_more ≡ false }
    {
        Pairs {
            pairs: IndexSet::new(alloc),
            has_more: false,
        }
    }

    /// Returns the number of pairs, up to 4,096.
    pub fn count(&self) -> usize
        ensures { result ≡ length self.now.pairs.keys }
    {
        self.pairs.len()
    }

    /// Returns true if there are more pairs than are counted.
    pub fn has_more(&self) -> bool
        ensures { result ≡ self.now.has_more }
    {
        self.has_more
    }

    /// Adds a pair, unless it is in the set.
    pub fn add(&mut self, pair: Pair) -> Result<(), AllocError>
        ensures { OnOk result (AddsPair pair self.old self.new) }
    {
        if self.pairs.contains(&pair) || self.pairs.contains(&pair.turned()) {
            return Ok(());
        }
        if self.pairs.len() >= MAX_PAIRS {
            self.has_more = true;
            return Ok(());
        }
        self.pairs.insert(pair)?;
        Ok(())
    }
}
