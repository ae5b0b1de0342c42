//! Consecutive cells. The bytes at the front are contiguous.

ghost use Rattle.std.specs.Prelude.{◌≡◌, ◌≤◌, ◌∷◌, List, OnOk, OnErr, IfSome, drop, get_or, vec_len, None, Option, Some, ◌+◌, ◌-◌, ◌++◌, max, min, [], length, true};
ghost use Rattle.capture_tcp.specs.Cells.{Kept, all_of};
ghost use Rattle.capture_tcp.specs.InnerCells.{Joins};
ghost use Rattle.capture_tcp.specs.InnerReassembly.{IsStored};
ghost use Rattle.capture_tcp.specs.declared.reassembly.Cell.TheVariants.{Octet};

use crate::reassembly::Cell;
use crate::waiting_runs::WaitingRuns;
use std::alloc::{AllocError, Global};
use std::marker::Model;

/// Consecutive cells: contiguous bytes at the front, which are appended, compared and cut out together, then cells of
/// any kind, of which some may be missing. Contracts see both.
#[derive(Drop)]
pub(crate) struct Cells {
    octets: Vec<u8>,
    // This number of the bytes was dropped.
    gone: usize,
    others: WaitingRuns,
}

impl Model for Cells {
    ghost Value = { Kept };

    ghost view = { λ c. record { octets = drop c.gone c.octets.items; others = c.others } };

    ghost invariant = { λ c. c.gone ≤ vec_len c.octets };
}

impl Cells {
    /// Creates an empty sequence. Does not allocate.
    pub fn new(alloc: Global) -> Cells
        ensures { result ≡ record { octets = []; others = [] } }
    {
        Cells {
            octets: Vec::new(alloc),
            gone: 0,
            others: WaitingRuns::new(alloc),
        }
    }

    /// Returns the contiguous bytes at the front.
    #[inline(always)]
    pub fn run(&self) -> &[u8]
        ensures { result.now ≡ self.now.octets }
    {
        &self.octets[self.gone..]
    }

    /// Returns true if nothing follows the bytes at the front.
    #[inline(always)]
    pub fn is_run(&self) -> bool
        ensures { result ≡ true → self.now.others ≡ [] }
    {
        self.others.is_empty()
    }

    /// Returns the number of cells, including the missing ones between them.
    pub fn len(&self) -> u64
        ensures { result ≡ length (all_of self.now) }
    {
        (self.octets.len() - self.gone) as u64 + self.others.len()
    }

    /// Returns the cell at an index. Returns `None` if it is missing.
    pub fn get(&self, index: u64) -> Option<Cell>
        ensures { result ≡ get_or (all_of self.now) index None }
    {
        let run = self.run();
        if index < run.len() as u64 {
            return Some(Cell::Octet(run[index as usize]));
        }
        self.others.get(index - run.len() as u64)
    }

    /// Returns the allocator.
    pub fn allocator(&self) -> Global {
        *self.octets.allocator()
    }

    /// Stores cells from an index on. A stored cell stays unchanged. A failed allocation changes nothing.
    #[tactic(auto, using(crate::proofs::ConnectedPackets::length_all))]
    pub fn put(&mut self, index: u64, cells: &[Cell]) -> Result<(), AllocError>
        ensures ok { OnOk result (IsStored 0 index cells.now (all_of self.old) (all_of self.new)) }
        ensures few { OnOk result (length (all_of self.new) ≤ max (length (all_of self.old)) (index + length cells.now)) }
        ensures err { OnErr result (self.new ≡ self.old) }
    {
        let run = self.run().len();
        let rest = cells_after(cells, index, run as u64);
        self.others.put(index.saturating_sub(run as u64), rest)
    }

    /// Drops the given number of cells from the front.
    #[tactic(auto, using(crate::proofs::ConnectedPackets::lets_go))]
    pub fn let_go(&mut self, count: u64)
        ensures { all_of self.new ≡ drop count (all_of self.old) }
    {
        let subsequent = count.saturating_sub(self.run().len() as u64);
        self.gone = settle(&mut self.octets, self.gone + (count - subsequent) as usize);
        self.others.drop_front(subsequent);
    }

    /// Moves the bytes that follow the front to the contiguous bytes there. The cells stay the same, also if an
    /// allocation fails.
    #[tactic(auto, using(crate::proofs::ConnectedPackets::joined))]
    pub fn join(&mut self) -> Result<(), AllocError>
        ensures { all_of self.new ≡ all_of self.old }
    {
        join(&mut self.octets, &mut self.others)
    }

    /// Appends bytes to those at the front, if there are no other cells. A failed allocation changes nothing.
    pub fn append(&mut self, octets: &[u8]) -> Result<(), AllocError>
        ensures ok { OnOk result (self.new ≡ record { octets = self.old.octets ++ octets.now; others = self.old.others }) }
        ensures err { OnErr result (self.new ≡ self.old) }
    {
        self.octets.extend_from_slice(octets)
    }
}

/// Returns the cells from an offset on that come at another offset or after it.
pub(crate) fn cells_after(cells: &[Cell], place: u64, base: u64) -> &[Cell]
    ensures { result.now ≡ drop (min (base - place) (length cells.now)) cells.now }
{
    let before = base.saturating_sub(place).min(cells.len() as u64);
    let (_, rest) = cells.split_at(before as usize);
    rest
}

// Moves the bytes to the front, if no more are left than were dropped. Returns the number of dropped bytes that are
// then still stored.
fn settle(octets: &mut Vec<u8>, gone: usize) -> usize
    requires { gone ≤ vec_len octets.old }
    ensures left { drop result octets.new.items ≡ drop gone octets.old.items }
    ensures within { result ≤ vec_len octets.new }
{
    let left = octets.len() - gone;
    if gone < left {
        return gone;
    }
    octets.copy_within(gone.., 0);
    octets.truncate(left);
    0
}

// Appends bytes from the front of the cells to others, up to a missing cell or one that is not a byte.
#[tactic(auto, using(crate::proofs::ConnectedPackets::joins_none, crate::proofs::ConnectedPackets::joins_one, crate::proofs::ConnectedPackets::shorter))]
fn join(octets: &mut Vec<u8>, cells: &mut WaitingRuns) -> Result<(), AllocError>
    ensures { Joins octets.old.items cells.old octets.new.items cells.new }
{
    while let Some(octet) = first_octet(cells) {
        octets.push(octet)?;
        cells.drop_front(1);
    }
    Ok(())
}

// Returns the byte at the front of the cells. Returns `None` if the first cell is not a byte.
#[tactic(auto, using(crate::proofs::ConnectedPackets::first_of))]
fn first_octet(cells: &WaitingRuns) -> Option<u8>
    ensures { IfSome result (λ octet. (more : List (Option Cell)) × (cells.now ≡ Some (Octet octet) ∷ more)) }
{
    match cells.get(0) {
        Some(Cell::Octet(octet)) => Some(octet),
        Some(Cell::Syn | Cell::Fin) | None => None,
    }
}
