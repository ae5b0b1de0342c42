//! The cells of one direction by offset.

ghost use Rattle.std.specs.Prelude.{◌≡◌, ◌≤◌, ◌<◌, ◌+◌, ◌++◌, ◌^◌, true, ◌-◌, max, take, false, [], IfSome, IfOk, None, OnOk, OnErr, drop, get_or, length, List, Err};
ghost use Rattle.capture_tcp.specs.Cells.{all_of};
ghost use Rattle.capture_tcp.specs.Reassembly.{in_piece, Store, CellIs, EndsFar, IsFront, IsPiece, IsStoreOf, PutsIn, ReturnsConflict};
ghost use Rattle.capture_tcp.specs.InnerReassembly.{IsStored, differs, differs_at, flag_of, further, held_of, is_another, octet_in, octets_of};
ghost use Rattle.capture_tcp.specs.Message.{cells_to, message_size, octets_after, cells_of};
ghost use Rattle.capture_tcp.specs.DataOnly.{AreOctetsFrom};
ghost use Rattle.capture_tcp.specs.InnerDataOnly.{HeadSays, IsLonger, flags_end};
ghost use Rattle.capture_tcp.specs.InnerEventSteps.{PieceEmits, Emits};
ghost use Rattle.capture_tcp.specs.TcpStreams.{End, Placed};
ghost use Rattle.capture_tcp.specs.declared.reassembly.ReassemblyFault.TheVariants.{Memory, Full};
ghost use Rattle.capture_tcp.specs.WithinWindow.{StaysNear};

use crate::cells::{Cells, cells_after};
use crate::keep_alive::Flags;
use std::alloc::{AllocError, Global};
use std::marker::Model;

// The maximum number of buffered cells.
const MOST: u64 = 1 << 26;

// The minimum length of a message, which is that of a header, and the maximum length of a message that can be buffered
// completely.
const SHORTEST: u64 = 10;

const LONGEST: u64 = MOST - 4;

/// A cell of a stream: one unit of sequence space, with its own offset.
#[derive(Clone, Copy, Debug, PartialEq, Eq)]
pub enum Cell {
    Syn,
    Octet(u8),
    Fin,
}

/// What the cells of a message are: its bytes; or the SYN; or bytes up to a FIN, which ends the stream.
#[derive(Drop)]
pub(crate) enum Piece {
    Message(Vec<u8>),
    Opens,
    Closes,
}

// What the first four cells of a message show of its size: some are missing; one of them ends it; or the given number
// of bytes follow them, none if no message has their length.
#[derive(Clone, Copy)]
enum Head {
    Missing,
    Ends(u64),
    Length(u64),
}

/// Why cells are not buffered.
#[derive(Clone, Copy, Debug, PartialEq, Eq)]
pub enum ReassemblyFault {
    /// They end more than 2^26 offsets after the first that is buffered.
    Full,
    /// An allocation failed.
    Memory,
}

impl From<AllocError> for ReassemblyFault {
    ghost from_gives = { λ _ f. f ≡ Memory };

    fn from(_: AllocError) -> ReassemblyFault {
        ReassemblyFault::Memory
    }
}

/// The cells of one direction that packets carried, from an offset on, and the first copy of each. Contracts see what
/// `IsStoreOf` states of it.
#[derive(Drop)]
pub struct ReassemblyBuffer {
    place: u64,
    cells: Cells,
    // No SYN and no FIN is buffered from this offset on.
    octets_from: u64,
}

impl Model for ReassemblyBuffer {
    ghost Value = { Store };

    ghost view = { λ h. record { place = h.place; cells = all_of h.cells } };

    ghost invariant = { λ h. AreOctetsFrom h.octets_from h.place (all_of h.cells) };
}

impl ReassemblyBuffer {
    /// Creates an empty buffer. Does not allocate.
    #[tactic(auto, using(crate::proofs::StoredCells::holds_none))]
    pub fn new(alloc: Global) -> ReassemblyBuffer
        ensures place { result.place ≡ 0 }
        ensures held { (d : End) → IsStoreOf result [] d }
    {
        ReassemblyBuffer {
            place: 0,
            cells: Cells::new(alloc),
            octets_from: 0,
        }
    }

    /// Buffers what a packet of this direction carries at an offset: a SYN, bytes, a FIN, each if present. A buffered
    /// cell stays unchanged, and cells before the first buffered offset are skipped.
    ///
    /// # Errors
    ///
    /// Returns `Memory` if an allocation fails, and `Full` if the packet ends more than 2^26 offsets after the first
    /// that is buffered: more bytes than that never wait. Neither changes anything.
    #[tactic(auto, using(crate::proofs::StoredCells::puts_in, crate::proofs::StoredCells::puts_none, crate::proofs::StoredCells::held_length, crate::proofs::StoredCells::cells_length))]
    pub fn put(&mut self, place: u64, flags: Flags, octets: &[u8]) -> Result<(), ReassemblyFault>
        ensures ok { OnOk result (PutsIn self.old place (cells_of flags.syn octets.now flags.fin) self.new) }
        ensures few { OnOk result (length self.new.cells ≤ max (length self.old.cells) (2 ^ 26)) }
        ensures full { result ≡ Err Full → EndsFar self.old.place place (cells_of flags.syn octets.now flags.fin) }
        ensures near { OnOk result (StaysNear self.old.place place (cells_of flags.syn octets.now flags.fin)) }
        ensures err { OnErr result (self.new ≡ self.old) }
    {
        let count = count_of(flags, octets);
        if count == 0 {
            return Ok(());
        }
        let Some(end) = place.checked_add(count) else {
            return Err(ReassemblyFault::Full);
        };
        let requested = end.saturating_sub(self.place);
        if requested > MOST {
            return Err(ReassemblyFault::Full);
        }
        hold(&mut self.cells, self.place, place, flags, octets)?;
        self.octets_from = self.octets_from.max(flags_end(flags, end));
        Ok(())
    }

    /// Drops the cells before an offset.
    #[tactic(auto, using(crate::proofs::StoredCells::still_holds))]
    pub fn pass(&mut self, place: u64)
        ensures place { self.new.place ≡ max self.old.place place }
        ensures held { (ps : List Placed) (d : End) → IsStoreOf self.old ps d → IsStoreOf self.new ps d }
        ensures few { length self.new.cells ≡ length self.old.cells - (place - self.old.place) }
    {
        let count = place.saturating_sub(self.place).min(self.cells.len());
        self.cells.let_go(count);
        self.place = self.place.max(place);
    }

    /// Returns true if a packet of this direction carries another cell than is buffered at its offset, and that is not
    /// yet acknowledged. Then the log ends at the packet, since nobody can know which of the two was read.
    #[tactic(auto, using(crate::proofs::Differing::returns_conflict, crate::proofs::Differing::returns_past, crate::proofs::StoredCells::held_length))]
    pub fn contradicts(&self, acknowledged: u64, place: u64, flags: Flags, octets: &[u8]) -> bool
        ensures { ReturnsConflict self.now acknowledged place (cells_of flags.syn octets.now flags.fin) result }
    {
        if place.checked_add(count_of(flags, octets)).is_none() {
            return false;
        }
        differs_in(&self.cells, self.place, acknowledged, place, flags, octets)
    }

    /// Returns the number of cells of the message at an offset: four bytes of a length, and as many bytes as it gives;
    /// a SYN and a FIN end it. Returns `None` if the message is incomplete, or ends after `upto`.
    #[tactic(auto, using(crate::proofs::CompleteStreams::front_none, crate::proofs::CompleteStreams::front_past, crate::proofs::CompleteStreams::front_whole))]
    pub fn front(&self, place: u64, upto: u64) -> Option<u64>
        ensures front { IsFront self.now place upto result }
        ensures piece { IsPiece self.now place upto result }
        ensures fits { IfSome result (λ count. (0 < count) × (place + count ≤ upto)) }
    {
        let first = place.checked_sub(self.place)?;
        let head = head_of(&self.cells, first);
        let room = upto.saturating_sub(place);
        if self.octets_from <= place && is_longer(head, room) {
            return None;
        }
        let Some(count) = size_of(&self.cells, first, head) else {
            return None;
        };
        if room < count {
            return None;
        }
        Some(count)
    }

    // Returns what the given number of cells from an offset on are.
    pub(crate) fn piece(&self, alloc: Global, place: u64, count: u64) -> Result<Piece, AllocError>
        ensures { IfOk result (λ emitted. Emits self.now place count emitted) }
    {
        cut_piece(alloc, &self.cells, place.saturating_sub(self.place), count)
    }

    /// Returns the cell at an offset, if it is buffered.
    #[tactic(auto, using(crate::proofs::StoredCells::cell_is, crate::proofs::StoredCells::cell_before))]
    pub fn cell(&self, place: u64) -> Option<Cell>
        ensures { CellIs self.now place result }
    {
        if place < self.place {
            return None;
        }
        self.cells.get(place - self.place)
    }
}

// Returns what the given number of cells from an index on are: if they are contiguous bytes, these.
#[tactic(auto, using(crate::proofs::StreamChunks::octets_emit))]
fn cut_piece(alloc: Global, cells: &Cells, first: u64, count: u64) -> Result<Piece, AllocError>
    ensures { IfOk result (λ emitted. PieceEmits (drop first (all_of cells.now)) count emitted) }
{
    match octets_at(cells.run(), first, count) {
        Some(octets) => Ok(Piece::Message(Vec::from_slice(alloc, octets)?)),
        None => piece_of(alloc, cells, first, count),
    }
}

// Returns the given number of bytes from an index on. Returns `None` if they are not all present.
fn octets_at(octets: &[u8], first: u64, count: u64) -> Option<&[u8]>
    ensures octets { IfSome result (λ found. found.now ≡ take count (drop first octets.now)) }
    ensures there { IfSome result (λ found. first + count ≤ length octets.now) }
{
    let end = first.checked_add(count)?;
    if end > octets.len() as u64 {
        return None;
    }
    let (_, subsequent) = octets.split_at(first as usize);
    let (found, _) = subsequent.split_at(count as usize);
    Some(found)
}

// Returns what the given number of cells are that are buffered without a gap from an index on.
#[tactic(auto, using(crate::proofs::StreamChunks::begins, crate::proofs::StreamChunks::misses, crate::proofs::StreamChunks::ends))]
fn piece_of(alloc: Global, cells: &Cells, first: u64, count: u64) -> Result<Piece, AllocError>
    ensures { IfOk result (λ emitted. PieceEmits (drop first (all_of cells.now)) count emitted) }
{
    let mut octets = Vec::new(alloc);
    let mut index = 0;
    while index < count {
        let Some(cell) = cell_after(cells, first, index) else {
            return Ok(Piece::Opens);
        };
        match cell {
            Cell::Syn => return Ok(Piece::Opens),
            Cell::Octet(octet) => octets.push(octet)?,
            Cell::Fin => return Ok(Piece::Closes),
        }
        index += 1;
    }
    Ok(Piece::Message(octets))
}

// Returns the number of cells that a packet carries.
#[tactic(auto, using(crate::proofs::StoredCells::held_length))]
fn count_of(flags: Flags, octets: &[u8]) -> u64
    ensures { result ≡ length (held_of flags.syn octets.now flags.fin) }
{
    u64::from(flags.syn) + octets.len() as u64 + u64::from(flags.fin)
}

// Buffers what a packet carries, from an offset on. A failed allocation changes nothing.
#[tactic(auto, using(crate::proofs::StoredCells::held_length))]
fn hold(
    cells: &mut Cells,
    base: u64,
    place: u64,
    flags: Flags,
    octets: &[u8],
) -> Result<(), AllocError>
    requires { place + length (held_of flags.syn octets.now flags.fin) < 2 ^ 64 }
    ensures ok { OnOk result (IsStored base place (held_of flags.syn octets.now flags.fin) (all_of cells.old) (all_of cells.new)) }
    ensures few { OnOk result (length (all_of cells.new) ≤ max (length (all_of cells.old)) (place + length (held_of flags.syn octets.now flags.fin) - base)) }
    ensures err { OnErr result (all_of cells.new ≡ all_of cells.old) }
{
    cells.join()?;
    if follows(cells, base, place, flags) {
        return append(cells, base, place, octets);
    }
    let carried = carried_cells(cells.allocator(), flags, octets)?;
    let rest = cells_after(&carried, place, base);
    cells.put(place.saturating_sub(base), rest)
}

// Returns true if the packet carries bytes alone, and all buffered cells are bytes without a gap up to the packet's
// offset or past it.
fn follows(cells: &Cells, base: u64, place: u64, flags: Flags) -> bool
    ensures flags { result ≡ true → (flags.syn ≡ false) × (flags.fin ≡ false) }
    ensures run { result ≡ true → (cells.now.others ≡ []) × (place - base ≤ length cells.now.octets) }
{
    if flags.syn || flags.fin {
        return false;
    }
    cells.is_run() && place.saturating_sub(base) <= cells.run().len() as u64
}

// Appends the bytes at an offset to the buffered ones, without the first ones that are already buffered or come before
// the first buffered byte. A failed allocation changes nothing.
fn append(cells: &mut Cells, base: u64, place: u64, octets: &[u8]) -> Result<(), AllocError>
    requires { (cells.old.others ≡ []) × (place - base ≤ length cells.old.octets) }
    ensures ok { OnOk result (IsStored base place (octets_of octets.now) (all_of cells.old) (all_of cells.new)) }
    ensures few { OnOk result (length (all_of cells.new) ≤ max (length (all_of cells.old)) (place + length octets.now - base)) }
    ensures err { OnErr result (cells.new ≡ cells.old) }
{
    let count = octets.len() as u64;
    let before = base.saturating_sub(place).min(count);
    let held = cells.run().len() as u64 - place.saturating_sub(base);
    let (_, new) = octets.split_at((before + held).min(count) as usize);
    cells.append(new)
}

// Returns the cells that a packet carries.
#[tactic(auto, using(crate::proofs::StoredCells::carried_is))]
fn carried_cells(alloc: Global, flags: Flags, octets: &[u8]) -> Result<Vec<Cell>, AllocError>
    ensures { IfOk result (λ cells. cells.items ≡ held_of flags.syn octets.now flags.fin) }
{
    let count = usize::from(flags.syn) + octets.len() + usize::from(flags.fin);
    let mut cells = Vec::with_capacity(alloc, count)?;
    append_flag(&mut cells, flags.syn, Cell::Syn)?;
    append_octets(&mut cells, octets)?;
    append_flag(&mut cells, flags.fin, Cell::Fin)?;
    Ok(cells)
}

// Appends a cell, if its flag is set.
fn append_flag(cells: &mut Vec<Cell>, is_set: bool, cell: Cell) -> Result<(), AllocError>
    ensures { OnOk result (cells.new.items ≡ cells.old.items ++ flag_of is_set cell) }
{
    if is_set {
        cells.push(cell)?;
    }
    Ok(())
}

// Appends a cell for each byte.
#[tactic(auto, using(crate::proofs::StoredCells::octets_next, crate::proofs::StoredCells::octets_end))]
fn append_octets(cells: &mut Vec<Cell>, octets: &[u8]) -> Result<(), AllocError>
    ensures { OnOk result (cells.new.items ≡ cells.old.items ++ octets_of octets.now) }
{
    let mut rest = octets;
    while let Some((octet, more)) = rest.split_first() {
        cells.push(Cell::Octet(*octet))?;
        rest = more;
    }
    Ok(())
}

// Returns true if a packet carries a conflicting cell.
#[tactic(auto, using(crate::proofs::Differing::returns_syn, crate::proofs::Differing::returns_octets, crate::proofs::Differing::returns_fin, crate::proofs::StoredCells::held_length))]
fn differs_in(
    cells: &Cells,
    base: u64,
    acknowledged: u64,
    place: u64,
    flags: Flags,
    octets: &[u8],
) -> bool
    requires { place + length (held_of flags.syn octets.now flags.fin) < 2 ^ 64 }
    ensures { result ≡ differs base acknowledged place (held_of flags.syn octets.now flags.fin) (all_of cells.now) }
{
    let first = place + u64::from(flags.syn);
    let subsequent = first + octets.len() as u64;
    flag_differs(cells, base, acknowledged, place, flags.syn, Cell::Syn)
        || octets_differ(cells, base, acknowledged, first, octets)
        || flag_differs(cells, base, acknowledged, subsequent, flags.fin, Cell::Fin)
}

// Returns true if a cell is present and conflicts.
#[tactic(auto, using(crate::proofs::Differing::one_differs, crate::proofs::Differing::none_differs))]
fn flag_differs(
    cells: &Cells,
    base: u64,
    acknowledged: u64,
    place: u64,
    is_set: bool,
    cell: Cell,
) -> bool
    ensures { result ≡ differs base acknowledged place (flag_of is_set cell) (all_of cells.now) }
{
    is_set && cell_differs(cells, base, acknowledged, place, cell)
}

// Returns true if some byte conflicts.
#[tactic(auto, using(crate::proofs::Differing::known_passed))]
fn octets_differ(cells: &Cells, base: u64, acknowledged: u64, place: u64, octets: &[u8]) -> bool
    requires { place + length octets.now < 2 ^ 64 }
    ensures { result ≡ differs base acknowledged place (octets_of octets.now) (all_of cells.now) }
{
    let known = acknowledged.saturating_sub(place).min(octets.len() as u64);
    let (_, open) = octets.split_at(known as usize);
    let place = place + known;
    if place < base || place < acknowledged {
        return some_differs(cells, base, acknowledged, place, open);
    }
    open_differ(cells, base, acknowledged, place, open)
}

// Returns true if some byte conflicts, and none is acknowledged. Contiguous bytes are compared at once.
fn open_differ(cells: &Cells, base: u64, acknowledged: u64, place: u64, octets: &[u8]) -> bool
    requires open { (base ≤ place) × (acknowledged ≤ place) }
    requires end { place + length octets.now < 2 ^ 64 }
    ensures { result ≡ differs base acknowledged place (octets_of octets.now) (all_of cells.now) }
{
    let run = cells.run();
    let (_, subsequent) = run.split_at((place - base).min(run.len() as u64) as usize);
    let count = subsequent.len().min(octets.len());
    let (held, _) = subsequent.split_at(count);
    let (copy, rest) = octets.split_at(count);
    if copy != held {
        return true;
    }
    others_differ(cells, base, acknowledged, place + count as u64, rest)
}

// Returns true if some byte conflicts. If nothing is buffered, none does.
#[tactic(auto, using(crate::proofs::Differing::past_differs))]
fn others_differ(cells: &Cells, base: u64, acknowledged: u64, place: u64, octets: &[u8]) -> bool
    requires { place + length octets.now < 2 ^ 64 }
    ensures { result ≡ differs base acknowledged place (octets_of octets.now) (all_of cells.now) }
{
    if place.saturating_sub(base) >= cells.len() {
        return false;
    }
    some_differs(cells, base, acknowledged, place, octets)
}

// Returns true if some byte conflicts, comparing one after another.
#[tactic(auto, using(crate::proofs::Differing::octet_found, crate::proofs::Differing::octet_passed, crate::proofs::Differing::octets_end))]
fn some_differs(cells: &Cells, base: u64, acknowledged: u64, place: u64, octets: &[u8]) -> bool
    requires { place + length octets.now < 2 ^ 64 }
    ensures { result ≡ differs base acknowledged place (octets_of octets.now) (all_of cells.now) }
{
    let mut place = place;
    let mut rest = octets;
    while let Some((octet, more)) = rest.split_first() {
        if cell_differs(cells, base, acknowledged, place, Cell::Octet(*octet)) {
            return true;
        }
        place += 1;
        rest = more;
    }
    false
}

// Returns true if a cell is not acknowledged and differs from the one buffered at its offset.
#[tactic(auto, using(crate::proofs::Differing::is_acknowledged, crate::proofs::Differing::is_open))]
fn cell_differs(cells: &Cells, base: u64, acknowledged: u64, place: u64, cell: Cell) -> bool
    ensures { result ≡ differs_at base acknowledged place cell (all_of cells.now) }
{
    if place < acknowledged {
        return false;
    }
    is_another(cell, cells.get(place.saturating_sub(base)))
}

// Returns true if a cell differs from the buffered one.
fn is_another(cell: Cell, held: Option<Cell>) -> bool
    ensures { result ≡ is_another cell held }
{
    match held {
        Some(other) => cell != other,
        None => false,
    }
}

// Returns the offset after a packet with a SYN or a FIN.
fn flags_end(flags: Flags, end: u64) -> u64
    ensures { result ≡ flags_end flags.syn flags.fin end }
{
    if flags.syn {
        return end;
    }
    if flags.fin {
        return end;
    }
    0
}

// Returns true if a message of bytes alone has more cells than `room`.
fn is_longer(head: Head, room: u64) -> bool
    ensures { result ≡ true → IsLonger room head }
{
    match head {
        Head::Missing => false,
        Head::Ends(_) => false,
        Head::Length(count) => room.saturating_sub(4) < count,
    }
}

// Returns the number of cells of the message at an index, from its first cells. Returns `None` if it is incomplete.
fn size_of(cells: &Cells, first: u64, head: Head) -> Option<u64>
    requires { HeadSays (drop first (all_of cells.now)) head }
    ensures size { result ≡ message_size (in_piece (drop first (all_of cells.now))) }
    ensures some { IfSome result (λ count. 0 < count) }
{
    match head {
        Head::Missing => None,
        Head::Ends(count) => Some(count),
        Head::Length(count) => size_by_length(cells, first, count),
    }
}

// Returns the number of cells of the message at an index, whose length is the given number of bytes. Returns `None` if
// it is incomplete.
#[tactic(auto, using(crate::proofs::CompleteStreams::octets_there))]
fn size_by_length(cells: &Cells, first: u64, count: u64) -> Option<u64>
    requires { count < 2 ^ 32 }
    ensures size { result ≡ further 4 (cells_to count (in_piece (drop 4 (drop first (all_of cells.now))))) }
    ensures some { IfSome result (λ all. 4 ≤ all) }
{
    if 4 + count <= (cells.run().len() as u64).saturating_sub(first) {
        return Some(4 + count);
    }
    size_after(cells, first, 4, count)
}

// Returns what the first cells of the message at an index show.
#[tactic(auto, using(crate::proofs::CompleteStreams::size_none, crate::proofs::CompleteStreams::size_end, crate::proofs::CompleteStreams::next_kept, crate::proofs::CompleteStreams::size_done, crate::proofs::CompleteStreams::size_begins))]
fn head_of(cells: &Cells, first: u64) -> Head
    ensures { HeadSays (drop first (all_of cells.now)) result }
{
    let mut value = 0;
    let mut index = 0;
    while index < 4 {
        let Some(cell) = cell_after(cells, first, index) else {
            return Head::Missing;
        };
        index += 1;
        let Some(octet) = octet_of(cell) else {
            return Head::Ends(index);
        };
        value = value * 256 + u64::from(octet);
    }
    Head::Length(octets_after(value))
}

// Returns the number of bytes after a length: 0 if no message has this length.
fn octets_after(length: u64) -> u64
    ensures value { result ≡ octets_after length }
    ensures bound { result ≤ length }
{
    if length < SHORTEST {
        return 0;
    }
    if length > LONGEST {
        return 0;
    }
    length
}

// Returns the number of cells before an index and of the given number of cells after it, up to one that is not a byte.
#[tactic(auto, using(crate::proofs::CompleteStreams::rest_none, crate::proofs::CompleteStreams::rest_end, crate::proofs::CompleteStreams::rest_next, crate::proofs::CompleteStreams::rest_done))]
fn size_after(cells: &Cells, first: u64, index: u64, count: u64) -> Option<u64>
    requires { index + count < 2 ^ 63 }
    ensures size { result ≡ further index (cells_to count (in_piece (drop index (drop first (all_of cells.now))))) }
    ensures some { IfSome result (λ all. index ≤ all) }
{
    let mut index = index;
    let mut left = count;
    while left > 0 {
        let cell = cell_after(cells, first, index)?;
        index += 1;
        let Some(_) = octet_of(cell) else {
            return Some(index);
        };
        left -= 1;
    }
    Some(index)
}

// Returns the cell at this distance after an index. Returns `None` if it is missing.
#[tactic(auto, using(crate::proofs::CompleteStreams::cell_there, crate::proofs::CompleteStreams::cell_far))]
fn cell_after(cells: &Cells, first: u64, index: u64) -> Option<Cell>
    ensures { result ≡ get_or (drop first (all_of cells.now)) index None }
{
    if index >= cells.len().saturating_sub(first) {
        return None;
    }
    cells.get(first + index)
}

// Returns the byte of a cell, if it is one.
fn octet_of(cell: Cell) -> Option<u8>
    ensures { result ≡ octet_in cell }
{
    match cell {
        Cell::Syn => None,
        Cell::Octet(octet) => Some(octet),
        Cell::Fin => None,
    }
}
