//! A capture file of a series.

use crate::blocks::Blocks;
use capture_pcap::{FileFault, Packets, Step};
use hsms_frame::Reader;
use std::alloc::Global;
use std::io::Read;

/// A capture file that is read packet by packet. Memory holds at most one of them, and 65,536 bytes more.
#[derive(Drop)]
pub struct Part<I> {
    source: Reader<I>,
    packets: Packets,
    // What was read and not passed: the first packet, or why there is none.
    first: Option<Result<Step, FileFault>>,
    // The number of packets that were passed.
    passed: u64,
}

impl<I: Read + Drop> Part<I> {
    /// Opens a file, and reads up to its first packet.
    ///
    /// # Errors
    ///
    /// Returns why the file is not a capture. Why its first packet cannot be read is returned by [`Part::pass`].
    pub fn open(alloc: Global, input: I) -> Result<Part<I>, FileFault> {
        let mut source = Reader::new(input);
        let mut packets = Packets::open(alloc, &mut source)?;
        let first = first_step(&mut packets, &mut source);
        Ok(Part {
            source,
            packets,
            first: Some(first),
            passed: 0,
        })
    }

    /// Returns the time of the first packet in milliseconds since 1970, if the file has one with a time.
    pub fn time(&self) -> Option<u128> {
        match self.first {
            Some(Ok(Step::Packet(_, record))) => record.time,
            _ => None,
        }
    }

    /// Returns the number of packets that were passed.
    pub fn passed(&self) -> u64 {
        self.passed
    }

    /// Passes the next record or block of the file, and appends its packet, if it has one. Returns false at the end of
    /// the file.
    pub fn pass(&mut self, blocks: &mut Blocks) -> Result<bool, FileFault> {
        if self.passed < self.unread() {
            self.passed = self.passed.saturating_add(1);
            blocks.push_unread()?;
            return Ok(true);
        }
        let step = match self.first.take() {
            Some(step) => step?,
            None => self.packets.next(&mut self.source)?,
        };
        match step {
            Step::Packet(number, record) => {
                let end = record.body.saturating_add(record.held);
                let octets = self.packets.octets().get(record.body..end).unwrap_or(&[]);
                blocks.push_packet(&record, octets)?;
                self.passed = number;
                Ok(true)
            }
            Step::Passed => Ok(true),
            Step::End => Ok(false),
        }
    }

    // Returns the number of packets before the one that was read and not passed.
    fn unread(&self) -> u64 {
        match self.first {
            Some(Ok(Step::Packet(number, _))) => number.saturating_sub(1),
            _ => self.packets.reader().packets(),
        }
    }
}

// Reads up to the first packet.
fn first_step<I: Read>(packets: &mut Packets, source: &mut Reader<I>) -> Result<Step, FileFault> {
    for _ in 0..u64::MAX {
        match packets.next(source)? {
            Step::Passed => {}
            step => return Ok(step),
        }
    }
    Ok(Step::Passed)
}
