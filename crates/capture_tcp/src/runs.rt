//! Runs of cells, in the order of their offsets.

ghost use Rattle.std.specs.Prelude.{◌≡◌, ℕ, ◌<◌, ◌≤◌, ◌-◌, ◌+◌, ◌++◌, ◌^◌, true, false, drop, take, length, OnOk, OnErr, IfOk};
ghost use Rattle.std.specs.VecDeque.{deque_len};
ghost use Rattle.capture_tcp.specs.InnerReassembly.{cell_from};
ghost use Rattle.capture_tcp.specs.InnerRuns.{CellRun, end_of_run, run_cell, AreApart, HasAt, IfAt, IsAfter, IsKnown, AreWithin, start_at, first_copies, StoresRun, StoresAt, ExtendsLast, KeepsFrom};

use crate::reassembly::Cell;
use std::alloc::{AllocError, Global};
use std::collections::VecDeque;
use std::marker::Model;

/// Contiguous cells from an offset on.
#[derive(Drop)]
pub(crate) struct Run {
    at: u64,
    cells: Vec<Cell>,
}

impl Model for Run {
    ghost use Rattle.capture_tcp.specs.InnerRuns.{CellRun};

    ghost Value = { CellRun };

    ghost view = { λ r. record { at = r.at; cells = r.cells.items } };
}

impl Run {
    // Returns the offset of the first cell.
    #[inline(always)]
    fn at(&self) -> u64
        ensures { result ≡ self.now.at }
    {
        self.at
    }

    // Returns the cell at an offset. Returns `None` if the run does not have it.
    #[inline(always)]
    #[tactic(auto, using(crate::proofs::ApartRuns::too_early, crate::proofs::ApartRuns::too_late, crate::proofs::ApartRuns::is_inside))]
    fn cell(&self, place: u64) -> Option<Cell>
        ensures { result ≡ cell_from self.now.at self.now.cells place }
    {
        if place < self.at {
            return None;
        }
        let index = place - self.at;
        if index >= self.cells.len() as u64 {
            return None;
        }
        Some(self.cells[index as usize])
    }

    // Returns the number of cells from an offset on.
    fn count_from(&self, place: u64) -> u64
        ensures { self.now.at ≤ place → result ≡ end_of_run self.now - place }
    {
        (self.cells.len() as u64).saturating_sub(place.saturating_sub(self.at))
    }

    // Returns true if the run ends by an offset.
    fn ends_by(&self, end: u64) -> bool
        ensures ends { result ≡ true → end_of_run self.now ≤ end }
        ensures passes { result ≡ false → end < end_of_run self.now }
    {
        self.at <= end && self.cells.len() as u64 <= end - self.at
    }

    // Returns true if the run ends at an offset.
    fn ends_at(&self, end: u64) -> bool
        ensures { result ≡ true → end ≡ end_of_run self.now }
    {
        self.at <= end && self.cells.len() as u64 == end - self.at
    }

    // Appends cells. A failed allocation changes nothing.
    fn extend(&mut self, cells: &[Cell]) -> Result<(), AllocError>
        ensures ok { OnOk result (self.new ≡ record { at = self.old.at; cells = self.old.cells ++ cells.now }) }
        ensures err { OnErr result (self.new ≡ self.old) }
    {
        self.cells.extend_from_slice(cells)
    }
}

// Returns true if the run at an index starts at an offset or before it.
fn starts_by(runs: &VecDeque<Run>, index: usize, place: u64) -> bool
    requires { index < deque_len runs.now }
    ensures by { result ≡ true → HasAt (λ r. r.at ≤ place) runs.now.items index }
    ensures after { result ≡ false → IfAt (λ r. place < r.at) runs.now.items index }
{
    match runs.get(index) {
        Some(run) => run.at() <= place,
        None => false,
    }
}

// Returns the index of the first run that starts after an offset.
fn place_after(runs: &VecDeque<Run>, place: u64) -> usize
    ensures { IsAfter place runs.now.items result }
{
    let mut low = 0;
    let mut high = runs.len();
    while low < high {
        let middle = low + (high - low) / 2;
        if starts_by(runs, middle, place) {
            low = middle + 1;
        } else {
            high = middle;
        }
    }
    low
}

// Returns the cell at an offset. Returns `None` if it is missing.
pub(crate) fn cell_at(runs: &VecDeque<Run>, place: u64) -> Option<Cell>
    ensures { (high : ℕ) → AreApart 0 high runs.now.items → result ≡ run_cell runs.now.items place }
{
    let index = place_after(runs, place);
    if index == 0 {
        return None;
    }
    match runs.get(index - 1) {
        Some(run) => run.cell(place),
        None => None,
    }
}

// Returns how many of a number of cells from an offset on the run before an index has.
fn known_from(runs: &VecDeque<Run>, index: usize, place: u64, count: usize) -> usize
    requires { IsAfter place runs.now.items index }
    ensures { IsKnown place count runs.now.items index result }
{
    if index == 0 {
        return 0;
    }
    match runs.get(index - 1) {
        Some(run) => run.count_from(place).min(count as u64) as usize,
        None => 0,
    }
}

// Returns how many runs from an index on end by an offset.
fn count_within(runs: &VecDeque<Run>, index: usize, end: u64) -> usize
    requires { index ≤ deque_len runs.now }
    ensures { AreWithin end runs.now.items index result }
{
    let mut count = 0;
    while let Some(run) = runs.get(index + count) {
        if !run.ends_by(end) {
            return count;
        }
        count += 1;
    }
    count
}

// Returns the lesser of the offset at which the run at an index starts, and another offset.
fn start_at(runs: &VecDeque<Run>, index: usize, end: u64) -> u64
    ensures value { result ≡ start_at end runs.now.items index }
    ensures most { result ≤ end }
{
    match runs.get(index) {
        Some(run) => run.at().min(end),
        None => end,
    }
}

// Returns these cells from an offset on, but where the runs have a cell, that one.
fn first_copies(runs: &VecDeque<Run>, place: u64, cells: &[Cell]) -> Result<Vec<Cell>, AllocError>
    requires { place + length cells.now < 2 ^ 64 }
    ensures { IfOk result (λ copies. (high : ℕ) → AreApart 0 high runs.now.items → copies.items ≡ first_copies runs.now.items place cells.now) }
{
    let alloc: Global = *runs.allocator();
    let mut copies = Vec::with_capacity(alloc, cells.len())?;
    let mut place = place;
    let mut rest = cells;
    while let Some((cell, more)) = rest.split_first() {
        copies.push(cell_at(runs, place).unwrap_or(*cell))?;
        place += 1;
        rest = more;
    }
    Ok(copies)
}

// Removes the given number of runs from an index on.
fn remove_from(runs: &mut VecDeque<Run>, index: usize, count: usize)
    requires { index + count ≤ deque_len runs.old }
    ensures { runs.new.items ≡ take index runs.old.items ++ drop (index + count) runs.old.items }
{
    let mut left: usize = count;
    while left > 0 {
        let Some(run) = runs.remove(index) else {
            return;
        };
        drop(run);
        left -= 1;
    }
}

// Stores cells from an offset on before the run at an index, if the run before ends by the offset. Runs among them
// become one run with the stored cells. A failed allocation changes nothing.
fn put_at(
    runs: &mut VecDeque<Run>,
    index: usize,
    place: u64,
    cells: &[Cell],
) -> Result<(), AllocError>
    requires end { place + length cells.now < 2 ^ 64 }
    requires index { index ≤ deque_len runs.old }
    ensures ok { OnOk result (StoresAt index place cells.now runs.old.items runs.new.items) }
    ensures err { OnErr result (runs.new.items ≡ runs.old.items) }
{
    let end = place + cells.len() as u64;
    let count = count_within(runs, index, end);
    let stop = start_at(runs, index + count, end);
    if stop <= place {
        return Ok(());
    }
    let (new, _) = cells.split_at((stop - place) as usize);
    let cells = first_copies(runs, place, new)?;
    runs.insert(index, Run { at: place, cells })?;
    remove_from(runs, index + 1, count);
    Ok(())
}

// Appends cells to the last run, if it ends at their offset. Returns whether it does. A failed allocation changes
// nothing.
fn extend_last(runs: &mut VecDeque<Run>, place: u64, cells: &[Cell]) -> Result<bool, AllocError>
    ensures done { IfOk result (λ is_done. is_done ≡ true → ExtendsLast place cells.now runs.old.items runs.new.items) }
    ensures left { IfOk result (λ is_done. is_done ≡ false → runs.new.items ≡ runs.old.items) }
    ensures err { OnErr result (runs.new.items ≡ runs.old.items) }
{
    let Some(mut last) = runs.pop_back() else {
        return Ok(false);
    };
    if !last.ends_at(place) {
        runs.push_back_reserved(last);
        return Ok(false);
    }
    let extended = last.extend(cells);
    runs.push_back_reserved(last);
    extended?;
    Ok(true)
}

// Stores cells from an offset on before the run at an index, if the run before ends by the offset: in that run, if it
// is the last one and ends there. A failed allocation changes nothing.
fn put_after(
    runs: &mut VecDeque<Run>,
    index: usize,
    place: u64,
    cells: &[Cell],
) -> Result<(), AllocError>
    requires end { place + length cells.now < 2 ^ 64 }
    requires index { index ≤ deque_len runs.old }
    ensures ok { OnOk result (StoresAt index place cells.now runs.old.items runs.new.items) }
    ensures err { OnErr result (runs.new.items ≡ runs.old.items) }
{
    if index < runs.len() {
        return put_at(runs, index, place, cells);
    }
    if extend_last(runs, place, cells)? {
        return Ok(());
    }
    put_at(runs, index, place, cells)
}

/// Stores cells from an offset on. A stored cell stays unchanged. A failed allocation changes nothing.
pub(crate) fn put(runs: &mut VecDeque<Run>, place: u64, cells: &[Cell]) -> Result<(), AllocError>
    requires { place + length cells.now < 2 ^ 64 }
    ensures ok { OnOk result (StoresRun place cells.now runs.old.items runs.new.items) }
    ensures err { OnErr result (runs.new.items ≡ runs.old.items) }
{
    let index = place_after(runs, place);
    let known = known_from(runs, index, place, cells.len());
    let (_, rest) = cells.split_at(known);
    put_after(runs, index, place + known as u64, rest)
}

/// Drops the runs at the front that end by an offset.
#[tactic(auto, using(crate::proofs::ApartRuns::keeps_all))]
pub(crate) fn pass(runs: &mut VecDeque<Run>, first: u64)
    ensures { KeepsFrom first runs.old.items runs.new.items }
{
    while let Some(run) = runs.front() {
        if !run.ends_by(first) {
            return;
        }
        runs.pop_front();
    }
}
