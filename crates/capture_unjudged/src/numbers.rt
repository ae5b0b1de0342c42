//! The lowest numbers of a set.

ghost use Rattle.std.specs.Prelude.{◌≡◌, ◌≤◌, [], OnOk, length};
ghost use Rattle.capture_unjudged.specs.Sets.{count_lower, with_number};

use std::alloc::{AllocError, Global};

// The maximum number of stored numbers: one more than a line lists.
const KEPT: usize = 9;

/// The lowest nine numbers of a set, in ascending order.
#[derive(Drop)]
pub struct Numbers {
    lowest: Vec<u16>,
}

impl Numbers {
    ghost use Rattle.std.specs.Prelude.{◌≡◌, [], OnOk};
    ghost use Rattle.capture_unjudged.specs.Sets.{with_number};

    /// Returns the empty set.
    pub fn new(alloc: Global) -> Numbers
        ensures { result.lowest.items ≡ [] }
    {
        Numbers {
            lowest: Vec::new(alloc),
        }
    }

    /// Returns the lowest numbers of the set, at most nine.
    pub fn lowest(&self) -> &[u16]
        ensures { result.now ≡ self.now.lowest.items }
    {
        self.lowest.as_slice()
    }

    /// Adds a number, unless it is in the set.
    pub fn add(&mut self, number: u16) -> Result<(), AllocError>
        ensures { OnOk result (self.new.lowest.items ≡ with_number self.old.lowest.items number) }
    {
        if self.lowest.contains(&number) {
            return Ok(());
        }
        let place = lower(&self.lowest, number);
        self.lowest.insert(place, number)?;
        self.lowest.truncate(KEPT);
        Ok(())
    }
}

// Returns the number of numbers at the front that are lower than a number.
#[tactic(auto, using(crate::proofs::Recursions::lower_none, crate::proofs::Recursions::lower_first, crate::proofs::Recursions::lower_last))]
fn lower(numbers: &[u16], number: u16) -> usize
    ensures count { result ≡ count_lower number numbers.now }
    ensures bound { result ≤ length numbers.now }
{
    let Some((first, rest)) = numbers.split_first() else {
        return 0;
    };
    if *first < number {
        return 1 + lower(rest, number);
    }
    0
}
