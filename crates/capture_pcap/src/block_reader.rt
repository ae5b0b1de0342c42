//! A reader of a capture file in memory, one record or block at a time.

ghost use Rattle.std.specs.Prelude.{◌≡◌, ◌≤◌, ◌<◌, ◌+◌, IfOk, length, take, drop, OnErr};
ghost use Rattle.capture_pcap.specs.File.{HasOpened, no_capture, opening_at, pcap_opening_at, State, HasParts, IsWithin, after, front_at, new_state, size_of};

use crate::byte_order::{Order, word_at};
use crate::fault::CaptureFault;
use crate::next_block::{Front, Interface, Record, pcap_front, pcapng_front};
use std::alloc::Global;
use std::marker::Model;

/// A file's format, and the byte order of its numbers.
#[derive(Clone, Copy, Debug)]
pub enum Format {
    /// pcap: `parts` of the time stamp's fraction make a millisecond, and all packets have the link type `link`.
    Pcap { order: Order, parts: u32, link: u32 },
    /// pcapng: the byte order of the section.
    Pcapng { order: Order },
}

/// What the first bytes of a file show.
#[derive(Clone, Copy, Debug)]
pub enum Opening {
    /// More bytes are needed.
    More,
    /// A file of this format. Its header has this number of bytes.
    Opened(Format, usize),
}

/// The state of reading a capture file: the format, the interfaces of the section, and the number of packets and bytes
/// that were passed. Both counts saturate.
#[derive(Drop)]
pub struct Reader {
    format: Format,
    interfaces: Vec<Interface>,
    packets: u64,
    place: u64,
}

impl Model for Reader {
    ghost Value = { State };

    ghost view = { λ r. record {
      format = r.format;
      interfaces = r.interfaces.items;
      packets = r.packets;
      place = r.place;
    } };

    ghost invariant = { λ r. HasParts r.format };
}

impl Reader {
    /// Creates a reader that starts after the file's header. Does not allocate.
    pub fn new(alloc: Global, format: Format, size: usize) -> Reader
        requires { HasParts format }
        ensures { result ≡ new_state format size }
    {
        Reader {
            format,
            interfaces: Vec::new(alloc),
            packets: 0,
            place: size as u64,
        }
    }

    /// Returns the number of packets that were passed.
    pub fn packets(&self) -> u64
        ensures { result ≡ self.now.packets }
    {
        self.packets
    }

    /// Returns the number of bytes that were passed: the offset of the next record or block.
    pub fn place(&self) -> u64
        ensures { result ≡ self.now.place }
    {
        self.place
    }

    /// Returns the record or block at the start of the bytes that follow what was passed. Does not allocate.
    pub fn front(&self, octets: &[u8]) -> Result<Front, CaptureFault>
        ensures front { result ≡ front_at self.now octets.now }
        ensures within { IfOk result (IsWithin (length octets.now)) }
    {
        match self.format {
            Format::Pcap { order, parts, link } => pcap_front(order, parts, link, octets),
            Format::Pcapng { order } => pcapng_front(order, &self.interfaces, octets),
        }
    }

    /// Passes the record or block that was found, and returns its size in bytes. The only error is `Memory`, after
    /// which the reader is unchanged.
    pub fn pass(&mut self, front: Front) -> Result<usize, CaptureFault>
        ensures size { IfOk result (λ n. n ≡ size_of front) }
        ensures ok { IfOk result (λ n. self.new ≡ after self.old front) }
        ensures err { OnErr result (self.new ≡ self.old) }
    {
        let size = match front {
            Front::More => 0,
            Front::Packet(record) => {
                self.packets = self.packets.saturating_add(1);
                record.size
            }
            Front::Begun(order, size) => {
                self.format = Format::Pcapng { order };
                self.interfaces.clear();
                size
            }
            Front::Described(interface, size) => {
                self.interfaces.push(interface)?;
                size
            }
            Front::Passed(counts, size) => {
                if counts {
                    self.packets = self.packets.saturating_add(1);
                }
                size
            }
        };
        self.place = self.place.saturating_add(size as u64);
        Ok(size)
    }
}

/// Returns the format that the first bytes show: pcap in either byte order, with micro- or nanoseconds, or pcapng. Does
/// not allocate.
#[tactic(auto, unfolding(crate::specs::File::opening_at))]
pub fn format_of(octets: &[u8]) -> Result<Opening, CaptureFault>
    ensures format { result ≡ opening_at octets.now }
    ensures opened { IfOk result (HasOpened (length octets.now)) }
{
    if octets.len() < 4 {
        return Ok(Opening::More);
    }
    match word_at(Order::Big, octets, 0) {
        0xa1b2c3d4 => Ok(pcap_opening(Order::Big, 1000, octets)),
        0xd4c3b2a1 => Ok(pcap_opening(Order::Little, 1000, octets)),
        0xa1b23c4d => Ok(pcap_opening(Order::Big, 1_000_000, octets)),
        0x4d3cb2a1 => Ok(pcap_opening(Order::Little, 1_000_000, octets)),
        0x0a0d0d0a => Ok(Opening::Opened(
            Format::Pcapng {
                order: Order::Little,
            },
            0,
        )),
        other => Err(no_capture(other)),
    }
}

// Returns the error for a file that is not a capture, from its first four bytes.
fn no_capture(magic: u32) -> CaptureFault
    ensures { result ≡ no_capture magic }
{
    if magic == 0x28b52ffd {
        return CaptureFault::Zstd;
    }
    if magic >> 16 == 0x1f8b {
        return CaptureFault::Gzip;
    }
    CaptureFault::Unknown
}

// Reads the header of a pcap file. Only the lowest 16 bits of its link type count.
fn pcap_opening(order: Order, parts: u32, octets: &[u8]) -> Opening
    requires { 0 < parts }
    ensures format { result ≡ pcap_opening_at order parts octets.now }
    ensures opened { HasOpened (length octets.now) result }
{
    if octets.len() < 24 {
        return Opening::More;
    }
    let link = word_at(order, octets, 20) % 65536;
    Opening::Opened(Format::Pcap { order, parts, link }, 24)
}

/// Returns the bytes of a packet, where they were read.
#[inline(always)]
pub fn octets_of<'a>(packet: &Record, octets: &'a [u8]) -> &'a [u8]
    requires { packet.now.body + packet.now.held ≤ length octets.now }
    ensures { result.now ≡ take packet.now.held (drop packet.now.body octets.now) }
{
    let (_, subsequent) = octets.split_at(packet.body);
    let (held, _) = subsequent.split_at(packet.held);
    held
}
