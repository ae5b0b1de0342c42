//! Cells that are buffered after the contiguous bytes, as runs: memory in proportion to what packets carried.

ghost use Rattle.std.specs.Prelude.{◌≡◌, ◌≤◌, ◌<◌, ◌+◌, ◌^◌, IfSome, OnOk, OnErr, drop, get_or, List, None, Option, [], length, max, true};
ghost use Rattle.capture_tcp.specs.InnerReassembly.{IsStored};
ghost use Rattle.capture_tcp.specs.InnerRuns.{AreApart, cells_between, run_cell};
ghost use Rattle.capture_tcp.specs.declared.reassembly.Cell.{Cell as HeldCell};

use crate::reassembly::Cell;
use crate::runs::{Run, cell_at, pass, put};
use std::alloc::{AllocError, Global};
use std::collections::VecDeque;
use std::marker::Model;

// The greatest offset after a cell. Offsets count from the first cell that was stored when there were none.
const LAST: u64 = 1 << 62;

/// Cells of any kind, of which some may be missing. Contracts see a list of them. A packet costs a binary search, and a
/// step for each of its cells and for each run that it moves or fills up.
#[derive(Drop)]
pub(crate) struct WaitingRuns {
    // The cells are those from this offset on, up to the other one.
    first: u64,
    end: u64,
    runs: VecDeque<Run>,
}

impl Model for WaitingRuns {
    ghost use Rattle.std.specs.Prelude.{◌≤◌, ◌-◌, ◌^◌, List, Option};
    ghost use Rattle.capture_tcp.specs.InnerRuns.{AreApart, cells_between, run_cell};
    ghost use Rattle.capture_tcp.specs.declared.reassembly.Cell.{Cell as HeldCell};

    ghost Value = { List (Option HeldCell) };

    ghost view = { λ w. cells_between (w.end - w.first) w.first (run_cell w.runs.items) };

    ghost invariant = { λ w. (w.first ≤ w.end) × (w.end ≤ 2 ^ 62) × AreApart 0 w.end w.runs.items };
}

impl WaitingRuns {
    /// Creates an empty sequence. Does not allocate.
    pub fn new(alloc: Global) -> WaitingRuns
        ensures { result ≡ [] }
    {
        WaitingRuns {
            first: 0,
            end: 0,
            runs: VecDeque::new(alloc),
        }
    }

    /// Returns true if there are no cells.
    #[inline(always)]
    #[tactic(auto, using(crate::proofs::WaitingCells::none_between))]
    pub fn is_empty(&self) -> bool
        ensures { result ≡ true → self.now ≡ [] }
    {
        self.first == self.end
    }

    /// Returns the number of cells, including the missing ones between them.
    #[tactic(auto, using(crate::proofs::WaitingCells::length_between))]
    pub fn len(&self) -> u64
        ensures count { result ≡ length self.now }
        ensures bound { result ≤ 2 ^ 62 }
    {
        self.end - self.first
    }

    /// Returns the cell at an index. Returns `None` if it is missing.
    pub fn get(&self, index: u64) -> Option<Cell>
        ensures { result ≡ get_or self.now index None }
    {
        if index >= self.end - self.first {
            return None;
        }
        cell_at(&self.runs, self.first + index)
    }

    /// Stores cells from an index on. A stored cell stays unchanged.
    ///
    /// # Errors
    ///
    /// Returns `AllocError` if an allocation fails, or if the cells end more than 2^62 offsets after the first that was
    /// stored since there were none. Neither changes anything.
    pub fn put(&mut self, index: u64, cells: &[Cell]) -> Result<(), AllocError>
        ensures ok { OnOk result (IsStored 0 index cells.now self.old self.new) }
        ensures few { OnOk result (length self.new ≤ max (length self.old) (index + length cells.now)) }
        ensures err { OnErr result (self.new ≡ self.old) }
    {
        let count = cells.len();
        let Some(place) = place_within(self.first, index, count) else {
            return Err(AllocError);
        };
        put(&mut self.runs, place, cells)?;
        self.end = self.end.max(place + count as u64);
        Ok(())
    }

    /// Drops the given number of cells from the front.
    pub fn drop_front(&mut self, count: u64)
        ensures { self.new ≡ drop count self.old }
    {
        if count >= self.end - self.first {
            self.runs.clear();
            self.first = 0;
            self.end = 0;
            return;
        }
        self.first += count;
        pass(&mut self.runs, self.first);
    }
}

// Returns the offset at an index, if the given number of cells from there on end in time.
fn place_within(first: u64, index: u64, count: usize) -> Option<u64>
    ensures { IfSome result (λ place. (place ≡ first + index) × (place + count ≤ 2 ^ 62)) }
{
    let place = first.checked_add(index)?;
    let end = place.checked_add(count as u64)?;
    if end > LAST {
        return None;
    }
    Some(place)
}
