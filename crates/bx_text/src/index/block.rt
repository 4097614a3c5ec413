//! A block of consecutive paragraphs, by their lengths: what an edit has to move.

ghost use Rattle.std.specs.Prelude.{◌≡◌, [], ◌∷◌, ◌++◌, ◌+◌, ◌<◌, ◌≤◌, ◌^◌, length, take, drop, nat_lt, IfOk};
ghost use Rattle.bx_text.specs.index.Capacity.{block_capacity};
ghost use Rattle.bx_text.specs.index.Paragraphs.{bytes_of, total};

use crate::index::lengths::Lengths;
use std::alloc::{AllocError, Global};
use std::marker::Model;

/// Capacity of a block, in paragraphs; specs/index/Capacity.antt says why.
pub const BLOCK_CAPACITY: usize = 512;

/// At most `BLOCK_CAPACITY` consecutive paragraphs, and their total length in bytes.
#[derive(Drop)]
pub struct Block {
    lengths: Vec<Lengths>,
    // the total length
    bytes: usize,
}

impl Model for Block {
    ghost use Rattle.std.specs.Prelude.{List};
    ghost use Rattle.bx_text.specs.declared.index.lengths.Lengths.{Lengths};
    ghost use Rattle.bx_text.specs.index.OneBlock.{IsBlock};

    ghost Value = { List Lengths };

    ghost view = { λ b. b.lengths.items };

    ghost invariant = { IsBlock };
}

/// Total length of some paragraphs, in bytes.
#[tactic(auto, using(crate::proofs::index_lemmas::Totals::total_more, crate::proofs::index_lemmas::Totals::total_front))]
pub fn total(lengths: &[Lengths]) -> usize
    requires { total lengths.now < 2 ^ 64 }
    ensures { result ≡ total lengths.now }
{
    let mut bytes = 0;
    for paragraph in lengths {
        bytes += paragraph.bytes();
    }
    bytes
}

impl Block {
    /// An empty block, with memory for `BLOCK_CAPACITY` paragraphs.
    pub fn new(alloc: Global) -> Result<Block, AllocError>
        ensures { IfOk result (λ b. b ≡ []) }
    {
        Ok(Block {
            lengths: Vec::with_capacity(alloc, BLOCK_CAPACITY)?,
            bytes: 0,
        })
    }

    /// Total length of the paragraphs, in bytes.
    pub fn bytes(&self) -> usize
        ensures { result ≡ total self.now }
    {
        self.bytes
    }

    /// The paragraphs.
    pub fn lengths(&self) -> &[Lengths]
        ensures paragraphs { result.now ≡ self.now }
        ensures few { length result.now ≤ block_capacity }
    {
        self.lengths.as_slice()
    }

    /// Whether the block has room for another paragraph.
    pub fn has_room(&self) -> bool
        ensures { result ≡ nat_lt (length self.now) block_capacity }
    {
        self.lengths.len() < BLOCK_CAPACITY
    }

    /// Appends a paragraph.
    #[tactic(auto, using(crate::proofs::index_lemmas::Totals::total_push))]
    pub fn push(&mut self, paragraph: Lengths)
        requires room { length self.old < block_capacity }
        requires short { total self.old + bytes_of paragraph < 2 ^ 64 }
        ensures { self.new ≡ self.old ++ paragraph ∷ [] }
    {
        self.bytes += paragraph.bytes();
        self.lengths.push(paragraph).unwrap();
    }

    /// Moves the paragraphs from the index `at` on into `rest`, a block whose old paragraphs are dropped, and returns `rest`.
    #[tactic(auto, using(crate::proofs::index_lemmas::Totals::total_rest))]
    pub fn cut(&mut self, at: usize, mut rest: Block) -> Block
        requires { at ≤ length self.old }
        ensures front { self.new ≡ take at self.old }
        ensures back { result ≡ drop at self.old }
    {
        let back = &self.lengths[at..];
        rest.lengths.clear();
        rest.lengths.extend_from_slice(back).unwrap();
        rest.bytes = total(back);
        self.bytes -= rest.bytes;
        self.lengths.truncate(at);
        rest
    }

    /// Appends the paragraphs of another block.
    #[tactic(auto, using(crate::proofs::index_lemmas::Totals::total_append))]
    pub fn append(&mut self, other: &Block)
        requires room { length self.old + length other.now ≤ block_capacity }
        requires short { total self.old + total other.now < 2 ^ 64 }
        ensures { self.new ≡ self.old ++ other.now }
    {
        self.bytes += other.bytes;
        self.lengths.extend_from_slice(&other.lengths).unwrap();
    }

    /// Removes all paragraphs.
    pub fn clear(&mut self)
        ensures { self.new ≡ [] }
    {
        self.lengths.clear();
        self.bytes = 0;
    }
}
