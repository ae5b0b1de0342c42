//! A block that buffers bytes for an output.

ghost use Rattle.std.specs.Prelude.{◌≡◌, ◌≤◌, ◌+◌, ◌++◌, ℕ, List, [], length, take, IfOk};
ghost use Rattle.secs_text.specs.BlockOutput.{AppendsBytes};
ghost use Rattle.secs_text.specs.InnerBlockOutput.{IsPlace, Puts};

use crate::block_copy::{append_slice, append_word};
use std::alloc::{AllocError, Global};
use std::marker::Model;

/// The size of a block in bytes.
const SIZE: usize = 65536;

/// The free space of a block in bytes once `room` has returned. It is enough for the words of the bytes that are
/// printed at a time, and for the text before and after them.
const FREE: usize = 24704;

/// An output that accepts slices of bytes in order. An output that can fail keeps its error, and its owner queries it.
pub trait Output {
    /// Holds of the bytes passed to the output. An output that does not record them may define it to hold of no bytes.
    ghost Given: { Self → List ℕ → Type 0 };

    /// Accepts bytes.
    fn give(&mut self, octets: &[u8])
        ensures { (given : List ℕ) → Given self.old given → Given self.new (given ++ octets.now) };
}

/// At most 65,536 bytes that were not passed to an output yet. Contracts see them as a list.
#[derive(Drop)]
pub struct Block {
    pub(crate) octets: Vec<u8>,
    pub(crate) used: usize,
}

impl Model for Block {
    ghost Value = { List ℕ };

    ghost view = { λ b. take b.used b.octets.items };

    ghost invariant = { λ b. (length b.octets.items ≡ 65536) × (b.used ≤ 65536) };
}

impl Block {
    /// Creates an empty block.
    ///
    /// # Errors
    ///
    /// Returns an error if the allocation fails.
    pub fn new(alloc: Global) -> Result<Block, AllocError>
        ensures { IfOk result (λ block. block ≡ []) }
    {
        let octets = vec![in alloc; 0u8; SIZE]?;
        Ok(Block { octets, used: 0 })
    }

    /// Returns the bytes in the block.
    pub fn as_slice(&self) -> &[u8]
        ensures { result.now ≡ self.now }
    {
        &self.octets[..self.used]
    }

    /// Appends bytes. If they do not fit, passes the block's bytes to `out` first.
    #[inline(always)]
    pub fn append_chunk<O: Output>(&mut self, out: &mut O, octets: &[u8])
        ensures { AppendsBytes (O.Given out.old) self.old (O.Given out.new) self.new octets.now }
    {
        if octets.len() <= SIZE - self.used {
            self.used = append_slice(self.octets.as_mut_slice(), self.used, octets);
        } else {
            self.write_after(out, octets);
        }
    }

    /// Appends the bytes of an array, as [`append_chunk`](Block::append_chunk) does, with loads and stores of its size.
    #[inline(always)]
    pub fn append_array<const N: usize, O: Output>(&mut self, out: &mut O, octets: &[u8; N])
        ensures { AppendsBytes (O.Given out.old) self.old (O.Given out.new) self.new octets.now }
    {
        if N <= SIZE - self.used {
            self.used = append_word::<N>(self.octets.as_mut_slice(), self.used, octets, N);
        } else {
            self.write_after(out, octets);
        }
    }

    // Passes the block's bytes to the output, and then these bytes.
    #[cold]
    #[inline(never)]
    fn write_after<O: Output>(&mut self, out: &mut O, octets: &[u8])
        ensures { AppendsBytes (O.Given out.old) self.old (O.Given out.new) self.new octets.now }
    {
        self.give_all(out);
        out.give(octets);
    }

    /// Drops the block's bytes.
    pub fn clear(&mut self)
        ensures { self.new ≡ [] }
    {
        self.used = 0;
    }

    /// Passes the block's bytes to an output and empties the block.
    pub fn give_all<O: Output>(&mut self, out: &mut O)
        ensures given { (given : List ℕ) → O.Given out.old given → O.Given out.new (given ++ self.old) }
        ensures none_left { self.new ≡ [] }
    {
        out.give(&self.octets[..self.used]);
        self.clear();
    }
}

/// Passes the bytes of a block before an offset to an output.
#[cold]
#[inline(never)]
fn give_front<O: Output>(out: &mut O, block: &[u8], at: usize)
    requires { at ≤ length block.now }
    ensures { (given : List ℕ) → O.Given out.old given → O.Given out.new (given ++ take at block.now) }
{
    out.give(&block[..at]);
}

/// Returns the offset at which bytes can be written to a block: `at`, or 0 if too little is free. In the second case it
/// first passes the bytes before `at` to the output.
#[inline(always)]
#[tactic(auto, using(crate::proofs::Blocks::puts_nothing, crate::proofs::Blocks::puts_given))]
pub fn room<O: Output>(out: &mut O, block: &[u8], at: usize) -> usize
    requires { IsPlace block.now at }
    ensures puts { Puts (O.Given out.old) block.now at (O.Given out.new) block.now result [] }
    ensures free { result + 24704 ≤ 65536 }
{
    if at <= SIZE - FREE {
        return at;
    }
    give_front(out, block, at);
    0
}
