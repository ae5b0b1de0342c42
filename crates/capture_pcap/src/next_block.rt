//! The next record (pcap) or block (pcapng) of a capture file.

ghost use Rattle.std.specs.Prelude.{◌≡◌, ◌≤◌, ◌<◌, ◌+◌, ◌-◌, ◌%◌, ◌^◌, ℕ, Option, None, Some, Result, Ok, length, take, drop, IfOk, IfSome, slice_get};
ghost use Rattle.capture_pcap.specs.File.{IsWithin};
ghost use Rattle.capture_pcap.specs.ByteOrder.{number_in};
ghost use Rattle.capture_pcap.specs.NextBlock.{pcap_at, pcapng_at, options_at, with_option, milliseconds_of, ticks_of, size_at, in_block, in_section, section_at, block_of, interface_at, packet_at, timed_at, untimed_at, order_of, held_of};

use crate::byte_order::{Order, long_of, short_at, word_at};
use crate::fault::CaptureFault;

// The maximum size of a record or block in bytes. A longer one is an error.
const GREATEST: usize = 0x1000000;

/// The position of a packet in the bytes that were read, and its attributes.
#[derive(Clone, Copy, Debug)]
pub struct Record {
    /// Milliseconds since 1970, rounded down. `None` if the block has no time.
    pub time: Option<u128>,
    /// The link type.
    pub link: u32,
    /// The offset of the packet's first byte.
    pub body: usize,
    /// The number of captured bytes of the packet.
    pub held: usize,
    /// True if the packet was captured in full.
    pub whole: bool,
    /// The size of the record or block in bytes.
    pub size: usize,
}

/// An interface of a section.
#[derive(Clone, Copy, Debug)]
pub struct Interface {
    /// The link type.
    pub link: u32,
    /// The snapshot length in bytes; 0 for no limit.
    pub snap: u32,
    /// The resolution, as in `if_tsresol`.
    pub resolution: u8,
    /// Seconds to add to each time, in two's complement.
    pub offset: u64,
}

/// The record or block at the start of the bytes.
#[derive(Clone, Copy, Debug)]
pub enum Front {
    /// It is incomplete.
    More,
    /// A packet.
    Packet(Record),
    /// The start of a section.
    Begun(Order, usize),
    /// The description of an interface.
    Described(Interface, usize),
    /// A skipped block, with whether it counts as a packet.
    Passed(bool, usize),
}

/// Reads the record at the start of a pcap file's bytes, after the file's header. `parts` of the time's fraction make a
/// millisecond.
#[tactic(auto, unfolding(crate::specs::NextBlock::pcap_at))]
pub fn pcap_front(order: Order, parts: u32, link: u32, octets: &[u8]) -> Result<Front, CaptureFault>
    requires { 0 < parts }
    ensures front { result ≡ pcap_at order parts link octets.now }
    ensures within { IfOk result (IsWithin (length octets.now)) }
{
    if octets.len() < 16 {
        return Ok(Front::More);
    }
    let held = word_at(order, octets, 8) as usize;
    if held > GREATEST {
        return Err(CaptureFault::Length);
    }
    if octets.len() - 16 < held {
        return Ok(Front::More);
    }
    let seconds = u128::from(word_at(order, octets, 0));
    let part = word_at(order, octets, 4);
    let had = word_at(order, octets, 12) as usize;
    Ok(Front::Packet(Record {
        time: Some(seconds * 1000 + u128::from(part / parts)),
        link,
        body: 16,
        held,
        whole: !(held < had),
        size: 16 + held,
    }))
}

/// Reads the block at the start of a pcapng file's bytes, in a section with this byte order and these interfaces.
#[tactic(auto, unfolding(crate::specs::NextBlock::pcapng_at))]
pub fn pcapng_front(
    order: Order,
    interfaces: &[Interface],
    octets: &[u8],
) -> Result<Front, CaptureFault>
    ensures front { result ≡ pcapng_at order interfaces.now octets.now }
    ensures within { IfOk result (IsWithin (length octets.now)) }
{
    if octets.len() < 12 {
        return Ok(Front::More);
    }
    if word_at(Order::Big, octets, 0) == 0x0a0d0d0a {
        return section_front(octets);
    }
    match block_size(order, octets)? {
        None => Ok(Front::More),
        Some(size) => block_front(order, interfaces, size, octets),
    }
}

// Reads a section's header.
fn section_front(octets: &[u8]) -> Result<Front, CaptureFault>
    requires { 12 ≤ length octets.now }
    ensures front { result ≡ section_at (order_of (number_in Order.Big 4 (drop 8 octets.now))) octets.now }
    ensures within { IfOk result (IsWithin (length octets.now)) }
{
    let order = match word_at(Order::Big, octets, 8) {
        0x1a2b3c4d => Order::Big,
        0x4d3c2b1a => Order::Little,
        _ => return Err(CaptureFault::Order),
    };
    match block_size(order, octets)? {
        None => Ok(Front::More),
        Some(size) => Ok(Front::Begun(order, size)),
    }
}

// Returns the length of the block at the start. Returns `None` if the block is incomplete.
#[inline(always)]
fn block_size(order: Order, octets: &[u8]) -> Result<Option<usize>, CaptureFault>
    ensures size { result ≡ size_at order octets.now }
    ensures least { IfOk result (λ size. IfSome size (λ n. 12 ≤ n)) }
    ensures there { IfOk result (λ size. IfSome size (λ n. n ≤ length octets.now)) }
{
    if octets.len() < 12 {
        return Ok(None);
    }
    let size = word_at(order, octets, 4) as usize;
    if size < 12 || size > GREATEST || size % 4 != 0 {
        return Err(CaptureFault::Length);
    }
    if octets.len() < size {
        return Ok(None);
    }
    if word_at(order, octets, size - 4) as usize == size {
        Ok(Some(size))
    } else {
        Err(CaptureFault::Trailer)
    }
}

// Reads a complete block.
fn block_front(
    order: Order,
    interfaces: &[Interface],
    size: usize,
    octets: &[u8],
) -> Result<Front, CaptureFault>
    requires least { 12 ≤ size }
    requires there { size ≤ length octets.now }
    ensures front { result ≡ block_of order interfaces.now (number_in order 4 octets.now) size octets.now }
    ensures within { IfOk result (IsWithin (length octets.now)) }
{
    match word_at(order, octets, 0) {
        1 => interface_front(order, size, octets),
        2 => {
            let which = usize::from(short_at(order, octets, 8));
            timed_front(order, interfaces, which, size, octets)
        }
        3 => untimed_front(order, interfaces, size, octets),
        6 => {
            let which = word_at(order, octets, 8) as usize;
            timed_front(order, interfaces, which, size, octets)
        }
        kind => Ok(Front::Passed(kind == 0xbad || kind == 0x40000bad, size)),
    }
}

// Reads an enhanced or old packet block.
fn timed_front(
    order: Order,
    interfaces: &[Interface],
    which: usize,
    size: usize,
    octets: &[u8],
) -> Result<Front, CaptureFault>
    requires { size ≤ length octets.now }
    ensures front { result ≡ timed_at order interfaces.now which size octets.now }
    ensures within { IfOk result (IsWithin (length octets.now)) }
{
    if size < 32 {
        return Err(CaptureFault::Length);
    }
    let Some(interface) = interface_of(interfaces, which) else {
        return Err(CaptureFault::Interface);
    };
    packet_front(order, interface, size, octets)
}

// Returns the interface with this number.
fn interface_of(interfaces: &[Interface], which: usize) -> Option<Interface>
    ensures { result ≡ slice_get interfaces.now which }
{
    interfaces.get(which).copied()
}

// Returns a packet of this interface.
fn packet_front(
    order: Order,
    interface: Interface,
    size: usize,
    octets: &[u8],
) -> Result<Front, CaptureFault>
    requires least { 32 ≤ size }
    requires there { size ≤ length octets.now }
    ensures front { result ≡ packet_at order (Some interface) (ticks_of interface.resolution) size octets.now }
    ensures within { IfOk result (IsWithin (length octets.now)) }
{
    let Some(per_second) = ticks(interface.resolution) else {
        return Err(CaptureFault::Resolution);
    };
    let held = word_at(order, octets, 20) as usize;
    if size - 32 < held {
        return Err(CaptureFault::Length);
    }
    let high = u64::from(word_at(order, octets, 12));
    let low = u64::from(word_at(order, octets, 16));
    let had = word_at(order, octets, 24) as usize;
    Ok(Front::Packet(Record {
        time: Some(milliseconds(per_second, interface.offset, high * 4294967296 + low)),
        link: interface.link,
        body: 28,
        held,
        whole: !(held < had),
        size,
    }))
}

// Reads a simple packet block.
fn untimed_front(
    order: Order,
    interfaces: &[Interface],
    size: usize,
    octets: &[u8],
) -> Result<Front, CaptureFault>
    requires { size ≤ length octets.now }
    ensures front { result ≡ untimed_at order (slice_get interfaces.now 0) size octets.now }
    ensures within { IfOk result (IsWithin (length octets.now)) }
{
    let Some(&interface) = interfaces.get(0) else {
        return Err(CaptureFault::Interface);
    };
    if size < 16 {
        return Err(CaptureFault::Length);
    }
    let had = word_at(order, octets, 8) as usize;
    let held = held_in(had, interface.snap as usize, size - 16);
    Ok(Front::Packet(Record {
        time: None,
        link: interface.link,
        body: 12,
        held,
        whole: !(held < had),
        size,
    }))
}

// Returns the number of captured bytes in a simple packet block.
fn held_in(had: usize, snap: usize, there: usize) -> usize
    ensures held { result ≡ held_of had snap there }
    ensures least { result ≤ there }
{
    if snap == 0 {
        return had.min(there);
    }
    had.min(snap).min(there)
}

// Returns the number of ticks in a second.
#[tactic(auto, using(crate::proofs::Options::positive))]
fn ticks(resolution: u8) -> Option<u64>
    ensures ticks { result ≡ ticks_of resolution }
    ensures some { IfSome result (λ n. 0 < n) }
{
    if resolution < 20 {
        return Some(10u64.pow(u32::from(resolution)));
    }
    if resolution < 128 {
        return None;
    }
    if resolution < 192 {
        return Some(2u64.pow(u32::from(resolution - 128)));
    }
    None
}

// Returns milliseconds since 1970, rounded down.
fn milliseconds(per_second: u64, offset: u64, count: u64) -> u128
    requires { 0 < per_second }
    ensures { result ≡ milliseconds_of per_second offset count }
{
    let since = u128::from(count) * 1000 / u128::from(per_second);
    if offset < 9223372036854775808 {
        return since + u128::from(offset) * 1000;
    }
    since.saturating_sub((18446744073709551616 - u128::from(offset)) * 1000)
}

// Reads an interface's block.
fn interface_front(order: Order, size: usize, octets: &[u8]) -> Result<Front, CaptureFault>
    requires { size ≤ length octets.now }
    ensures front { result ≡ interface_at order size octets.now }
    ensures within { IfOk result (IsWithin (length octets.now)) }
{
    if size < 20 {
        return Err(CaptureFault::Length);
    }
    let bare = Interface {
        link: u32::from(short_at(order, octets, 8)),
        snap: word_at(order, octets, 12),
        resolution: 6,
        offset: 0,
    };
    let (_, subsequent) = octets.split_at(16);
    let (options, _) = subsequent.split_at(size - 20);
    Ok(Front::Described(with_options(order, options, bare), size))
}

// Returns the interface as its options describe it.
fn with_options(order: Order, options: &[u8], bare: Interface) -> Interface
    ensures { result ≡ options_at (length options.now) order options.now bare }
{
    let mut interface = bare;
    let mut rest = options;
    for _ in 0..options.len() {
        if rest.len() < 4 {
            return interface;
        }
        let code = short_at(order, rest, 0);
        if code == 0 {
            return interface;
        }
        let length = usize::from(short_at(order, rest, 2));
        let padded = (length + 3) / 4 * 4;
        if rest.len() - 4 < padded {
            return interface;
        }
        let (_, body) = rest.split_at(4);
        let (value, _) = body.split_at(length);
        interface = changed(order, code, value, interface);
        let (_, subsequent) = rest.split_at(4 + padded);
        rest = subsequent;
    }
    interface
}

// Returns the interface as one option changes it.
fn changed(order: Order, code: u16, value: &[u8], bare: Interface) -> Interface
    ensures { result ≡ with_option order code value.now bare }
{
    if code == 9 && value.len() == 1 {
        return Interface {
            resolution: value[0],
            ..bare
        };
    }
    if code == 14 && value.len() == 8 {
        return Interface {
            offset: long_of(order, value),
            ..bare
        };
    }
    bare
}
