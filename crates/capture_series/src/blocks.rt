//! Packets as blocks of pcapng, in little endian, with times in milliseconds.

ghost use Rattle.std.specs.Prelude.{◌≤◌, length};

use capture_pcap::Record;
use std::alloc::{AllocError, Global};

// The maximum number of bytes of a packet in its block. No IP packet has more.
const LONGEST: usize = 0x1000000 - 32;

// The start of a section, of unknown length.
const SECTION: [u8; 28] = [
    0x0a, 0x0d, 0x0d, 0x0a, 28, 0, 0, 0, 0x4d, 0x3c, 0x2b, 0x1a, 1, 0, 0, 0, 255, 255, 255, 255,
    255, 255, 255, 255, 28, 0, 0, 0,
];

// An option: times are in milliseconds.
const MILLISECONDS: [u8; 8] = [9, 0, 1, 0, 3, 0, 0, 0];

// A block that counts as a packet and shows none.
const UNREAD: [u8; 16] = [0xad, 0x0b, 0, 0, 16, 0, 0, 0, 0, 0, 0, 0, 16, 0, 0, 0];

/// Blocks of pcapng that were not read yet.
#[derive(Drop)]
pub struct Blocks {
    octets: Vec<u8>,
    // The number of these bytes that were read.
    passed: usize,
    // The link type of the section's interface, if it has one.
    link: Option<u32>,
}

impl Blocks {
    /// Creates the start of a capture.
    pub fn new(alloc: Global) -> Result<Blocks, AllocError> {
        Ok(Blocks {
            octets: Vec::from_slice(alloc, &SECTION)?,
            passed: 0,
            link: None,
        })
    }

    /// Returns true if there are no bytes to read.
    pub fn is_empty(&self) -> bool {
        self.octets.is_empty()
    }

    /// Reads bytes to the start of a slice. Returns how many it read.
    pub fn read(&mut self, into: &mut [u8]) -> usize
        ensures { result ≤ length into.new }
    {
        let rest = self.octets.get(self.passed..).unwrap_or(&[]);
        let left = rest.len();
        let count = left.min(into.len());
        into[..count].copy_from_slice(&rest[..count]);
        self.passed = self.passed.saturating_add(count);
        if count == left {
            self.octets.clear();
            self.passed = 0;
        }
        count
    }

    /// Appends a packet: its link type, its time, its captured bytes, and whether these are all.
    pub fn push_packet(&mut self, record: &Record, octets: &[u8]) -> Result<(), AllocError> {
        let octets = &octets[..octets.len().min(LONGEST)];
        let held = length_of(octets);
        let had = if record.whole {
            held
        } else {
            held.saturating_add(1)
        };
        match record.time.and_then(milliseconds) {
            Some(time) => {
                if self.link != Some(record.link) {
                    self.push_interface(record.link, 0)?;
                }
                self.push_timed(time, had, octets)
            }
            None => {
                self.push_interface(record.link, held)?;
                self.link = None;
                self.push_untimed(had, octets)
            }
        }
    }

    /// Appends a block that counts as a packet and shows none.
    pub fn push_unread(&mut self) -> Result<(), AllocError> {
        self.octets.extend_from_slice(&UNREAD)
    }

    /// Appends the start of a block that is cut off.
    pub fn push_cut(&mut self) -> Result<(), AllocError> {
        self.octets.extend_from_slice(&[0])
    }

    // Appends a section with an interface of this link type and snapshot length.
    fn push_interface(&mut self, link: u32, snap: u32) -> Result<(), AllocError> {
        self.octets.extend_from_slice(&SECTION)?;
        self.push_words(&[1, 32, link % 65536, snap])?;
        self.octets.extend_from_slice(&MILLISECONDS)?;
        self.push_words(&[0, 32])?;
        self.link = Some(link);
        Ok(())
    }

    // Appends an enhanced packet block.
    fn push_timed(&mut self, time: u64, had: u32, octets: &[u8]) -> Result<(), AllocError> {
        let size = padded(length_of(octets)).saturating_add(32);
        let high = (time >> 32) as u32;
        let low = (time % 0x100000000) as u32;
        self.push_words(&[6, size, 0, high, low, length_of(octets), had])?;
        self.push_padded(octets)?;
        self.push_words(&[size])
    }

    // Appends a simple packet block, which has no time.
    fn push_untimed(&mut self, had: u32, octets: &[u8]) -> Result<(), AllocError> {
        let size = padded(length_of(octets)).saturating_add(16);
        self.push_words(&[3, size, had])?;
        self.push_padded(octets)?;
        self.push_words(&[size])
    }

    fn push_words(&mut self, words: &[u32]) -> Result<(), AllocError> {
        for word in words {
            self.octets.extend_from_slice(&word.to_le_bytes())?;
        }
        Ok(())
    }

    // Appends bytes, and zeros up to a multiple of four.
    fn push_padded(&mut self, octets: &[u8]) -> Result<(), AllocError> {
        self.octets.extend_from_slice(octets)?;
        for _ in length_of(octets)..padded(length_of(octets)) {
            self.octets.push(0)?;
        }
        Ok(())
    }
}

fn length_of(octets: &[u8]) -> u32 {
    u32::try_from(octets.len()).unwrap_or(u32::MAX)
}

// Returns a length rounded up to a multiple of four.
fn padded(length: u32) -> u32 {
    length.saturating_add(3) / 4 * 4
}

// Returns a time in the range of a block.
fn milliseconds(time: u128) -> Option<u64> {
    u64::try_from(time).ok()
}
