//! Output that is not yet written.

ghost use Rattle.std.specs.Prelude.{◌≡◌, ◌≤◌, ℕ, List, [], IfOk, IfSome, replicate, decimal};
ghost use Rattle.cli_output.specs.Line.{LineOf};
ghost use Rattle.explain_forms.specs.OutputBuffer.{Adds, AddsSome, HasMemory, HasEmitted, IsCollected, padded};

use cli_output::give_line;
use hsms_frame::Header;
use itoa::Buffer;
use secs_text::{Block, Output};
use std::alloc::{AllocError, Global};
use std::fmt;

/// Bytes in memory, as an output. After a failed allocation it drops its input.
#[derive(Drop)]
struct Memory {
    octets: Vec<u8>,
    is_refused: bool,
}

impl Memory {
    fn new(alloc: Global) -> Memory
        ensures { HasMemory result [] }
    {
        Memory {
            octets: Vec::new(alloc),
            is_refused: false,
        }
    }
}

impl Output for Memory {
    ghost use Rattle.explain_forms.specs.OutputBuffer.{HasMemory};

    ghost Given = { HasMemory };

    fn give(&mut self, octets: &[u8]) {
        if !self.is_refused {
            self.is_refused = self.octets.extend_from_slice(octets).is_err();
        }
    }
}

/// Output that is not yet written: in memory, followed by a block. After a failed allocation it accepts more output
/// without an error, but returns none.
#[derive(Drop)]
pub struct Page {
    alloc: Global,
    shown_line: Memory,
    block: Block,
    // The line of a message, to be written in another form.
    aside: Memory,
}

impl Page {
    /// Creates an empty buffer.
    pub fn new(alloc: Global) -> Result<Page, AllocError>
        ensures { IfOk result (λ page. HasEmitted page []) }
    {
        let block = Block::new(alloc)?;
        Ok(Page {
            alloc,
            shown_line: Memory::new(alloc),
            block,
            aside: Memory::new(alloc),
        })
    }

    /// Appends bytes.
    pub fn append_chunk(&mut self, octets: &[u8])
        ensures { Adds self.old self.new octets.now }
    {
        self.block.append_chunk(&mut self.shown_line, octets);
    }

    /// Appends `count` spaces.
    pub fn append_blanks(&mut self, count: usize)
        ensures { Adds self.old self.new (replicate count 32) }
    {
        for _ in 0..count {
            self.append_chunk(b" ");
        }
    }

    /// Appends a number in decimal, padded on the left with spaces to `width`.
    pub fn append_number(&mut self, number: u64, width: usize)
        ensures { Adds self.old self.new (padded width (decimal number)) }
    {
        let mut buffer = Buffer::new();
        let digits = buffer.format(number);
        self.append_blanks(width.saturating_sub(digits.len()));
        self.append_chunk(digits.as_bytes());
    }

    /// Appends the text of a value.
    pub fn append_words<D: fmt::Display>(&mut self, words: &D)
        ensures { (said : List ℕ) × IfSome (D.output words.now) (λ output. said ≡ output) × Adds self.old self.new said }
    {
        match words.to_string(self.alloc) {
            Ok(words) => self.append_chunk(words.as_bytes()),
            Err(_) => self.refuse(),
        }
    }

    /// Appends the line of a message, with its line ending, as `hsms show` shows it.
    pub fn append_message_line(&mut self, header: Header, text: &[u8], depth: u8)
        requires { depth ≤ 100 }
        ensures { (line : List ℕ) × LineOf depth (record { header = header; text = text.now }) line × Adds self.old self.new line }
    {
        give_line(&mut self.shown_line, &mut self.block, header, text, depth);
    }

    /// Returns the line of a message, without its line ending, as `hsms show` shows it. It is not appended.
    pub fn message(&mut self, header: Header, text: &[u8], depth: u8) -> String
        requires { depth ≤ 100 }
    {
        self.block.give_all(&mut self.shown_line);
        self.aside.octets.clear();
        give_line(&mut self.aside, &mut self.block, header, text, depth);
        self.block.give_all(&mut self.aside);
        if self.aside.is_refused {
            self.refuse();
        }
        let line = self.aside.octets.trim_ascii_end();
        let line = String::from_utf8_lossy(self.alloc, line);
        self.made(line)
    }

    /// Returns the text of a value, to be appended.
    pub fn words<D: fmt::Display>(&mut self, words: &D) -> String
        ensures { AddsSome self.old self.new }
    {
        let words = words.to_string(self.alloc);
        self.made(words)
    }

    /// Returns bytes of the log as text. Bytes that are not UTF-8 are replaced by U+FFFD.
    pub fn text(&mut self, octets: &[u8]) -> String {
        let text = String::from_utf8_lossy(self.alloc, octets);
        self.made(text)
    }

    // Returns the text. If its allocation failed, records that and returns an empty text.
    fn made(&mut self, text: Result<String, AllocError>) -> String
        ensures { AddsSome self.old self.new }
    {
        match text {
            Ok(text) => text,
            Err(_) => {
                self.refuse();
                String::new(self.alloc)
            }
        }
    }

    /// Records that an allocation for the output failed. The buffer then returns no more output.
    pub fn refuse(&mut self)
        ensures { (words : List ℕ) → Adds self.old self.new words }
    {
        self.block.give_all(&mut self.shown_line);
        self.shown_line.is_refused = true;
    }

    /// Returns the allocator for texts.
    pub fn alloc(&self) -> Global {
        self.alloc
    }

    /// Moves all output into memory.
    pub fn buffer_pending(&mut self)
        ensures shown_line { (text : List ℕ) → HasEmitted self.old text → HasEmitted self.new text }
        ensures collected { IsCollected self.new }
    {
        self.block.give_all(&mut self.shown_line);
    }

    /// Returns all buffered output.
    ///
    /// # Errors
    ///
    /// Returns `AllocError` if an allocation for the output failed.
    pub fn octets(&self) -> Result<&[u8], AllocError>
        ensures { IfOk result (λ octets. (text : List ℕ) → IsCollected self.now → HasEmitted self.now text → octets.now ≡ text) }
    {
        if self.shown_line.is_refused {
            return Err(AllocError);
        }
        Ok(&self.shown_line.octets)
    }

    /// Drops all buffered output.
    pub fn clear(&mut self)
        ensures { IsCollected self.old → HasEmitted self.new [] }
    {
        self.shown_line.octets.clear();
    }
}
