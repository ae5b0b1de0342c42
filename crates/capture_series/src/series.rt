//! The packets of several capture files, as one capture.

use crate::blocks::Blocks;
use crate::part::Part;
use capture_pcap::FileFault;
use std::alloc::{AllocError, Global};
use std::io;
use std::io::{ErrorKind, Read};

/// The next file of a series: its name, and the file if it can be opened.
#[derive(Drop)]
pub struct NextPart<'n, I> {
    pub name: &'n str,
    pub part: Result<Part<I>, FileFault>,
}

/// The files of a series, in order.
pub trait Parts<'n> {
    /// An open file.
    type Input: Read + Drop;

    /// Opens the next file. Returns `None` after the last one.
    fn next_part(&mut self) -> Option<NextPart<'n, Self::Input>>;
}

/// The name of a file with packets, and the number of the first one in the series, counted from 1.
#[derive(Clone, Copy)]
pub struct PartStart<'n> {
    pub name: &'n str,
    pub packet: u64,
}

/// The name of a file that cannot be read to its end, and why.
#[derive(Clone, Copy)]
pub struct FailedPart<'n> {
    pub name: &'n str,
    pub fault: FileFault,
}

/// A capture in pcapng whose packets are those of its files, in order. A file that cannot be read to its end is the
/// last one: the capture then ends within a block.
#[derive(Drop)]
pub struct Series<'n, P: Parts<'n>> {
    parts: P,
    part: Option<Part<P::Input>>,
    // The name of the file that was opened last.
    name: &'n str,
    blocks: Blocks,
    // The number of packets of the files that were read.
    before: u64,
    starts: Vec<PartStart<'n>>,
    failed: Option<FailedPart<'n>>,
    has_ended: bool,
}

impl<'n, P: Parts<'n> + Drop> Series<'n, P> {
    /// Creates a series of which nothing was read.
    pub fn new(alloc: Global, parts: P) -> Result<Series<'n, P>, AllocError> {
        Ok(Series {
            parts,
            part: None,
            name: "",
            blocks: Blocks::new(alloc)?,
            before: 0,
            starts: Vec::new(alloc),
            failed: None,
            has_ended: false,
        })
    }

    /// Returns the files of which packets were read, in order.
    pub fn starts(&self) -> &[PartStart<'n>] {
        &self.starts
    }

    /// Returns the file that cannot be read to its end, if there is one.
    pub fn failed(&self) -> Option<FailedPart<'n>> {
        self.failed
    }

    // Reads until there are blocks, or the last file has ended.
    fn fill(&mut self) -> io::Result<()> {
        for _ in 0..u64::MAX {
            if self.has_ended || !self.blocks.is_empty() {
                return Ok(());
            }
            if let Err(fault) = self.advance() {
                return self.fail(fault);
            }
        }
        Ok(())
    }

    // Reads a record or block of the file, or opens the next file.
    fn advance(&mut self) -> Result<(), FileFault> {
        let Some(part) = &mut self.part else {
            return self.open_next();
        };
        let passed = part.passed();
        let has_more = part.pass(&mut self.blocks)?;
        if passed == 0 && part.passed() > 0 {
            self.starts.extend_from_slice(&[PartStart {
                name: self.name,
                packet: self.before.saturating_add(1),
            }])?;
        }
        if !has_more {
            self.before = self.before.saturating_add(part.passed());
            self.part = None;
        }
        Ok(())
    }

    // Opens the next file, if there is one.
    fn open_next(&mut self) -> Result<(), FileFault> {
        match self.parts.next_part() {
            Some(next) => {
                self.name = next.name;
                self.part = Some(next.part?);
            }
            None => self.has_ended = true,
        }
        Ok(())
    }

    // Notes why the file cannot be read to its end.
    fn fail(&mut self, fault: FileFault) -> io::Result<()> {
        let fault = match self.blocks.push_cut() {
            Ok(()) => fault,
            Err(_) => FileFault::Memory,
        };
        self.has_ended = true;
        self.failed = Some(FailedPart {
            name: self.name,
            fault,
        });
        match fault {
            FileFault::Read => Err(io::Error::from(ErrorKind::Other)),
            FileFault::Memory => Err(io::Error::from(ErrorKind::OutOfMemory)),
            FileFault::Capture { .. } | FileFault::CutOff => Ok(()),
        }
    }
}

impl<'n, P: Parts<'n> + Drop> Read for Series<'n, P> {
    fn read(&mut self, into: &mut [u8]) -> io::Result<usize> {
        self.fill()?;
        Ok(self.blocks.read(into))
    }
}
