//! Paragraphs in blocks, found by number or offset, and put in and taken out. A position among the blocks is the number of
//! blocks before it.

ghost use Rattle.std.specs.Prelude.{◌≡◌, ℕ, [], ◌∷◌, ◌++◌, ◌+◌, ◌-◌, ◌<◌, ◌≤◌, ◌^◌, ◌⊎◌, length, take, drop, get_or, IfOk, OnOk, OnErr, MatchOption, vec_len};
ghost use Rattle.bx_text.specs.index.Paragraphs.{bytes_of, total};
ghost use Rattle.bx_text.specs.index.Flat.{flat, BlocksState, room_at, separator_of, IsSpanAround};

use crate::index::block::{BLOCK_CAPACITY, Block, total};
use crate::index::lengths::Lengths;
use crate::index::paragraph_span::ParagraphSpan;
use crate::index::splices::{cut_at, join_at, push_at, remove_blocks};
use std::alloc::{AllocError, Global};
use std::marker::Model;

/// Number of spare blocks to keep: what `Index::ready` asks for an edit that adds fewer than `BLOCK_CAPACITY` separators.
const SPARES_KEPT: usize = 4;

/// Paragraphs that end with a separator, in blocks, and spare blocks.
#[derive(Drop)]
pub struct Blocks {
    blocks: Vec<Block>,
    // not cleared: they may have old paragraphs
    spares: Vec<Block>,
}

impl Model for Blocks {
    ghost use Rattle.bx_text.specs.index.Flat.{BlocksState};
    ghost use Rattle.bx_text.specs.index.Blocks.{blocks_of, AreBlocks};

    ghost Value = { BlocksState };

    ghost view = { blocks_of };

    ghost invariant = { AreBlocks };
}

/// The paragraph of a block that an offset falls in: its index, the offsets of its start and its end, and the length of
/// its separator in bytes.
#[tactic(auto, using(crate::proofs::index_lemmas::Totals::total_more, crate::proofs::index_lemmas::Totals::total_front))]
fn position_within(lengths: &[Lengths], offset: usize) -> (usize, usize, usize, usize)
    requires inside { offset < total lengths.now }
    requires short { total lengths.now < 2 ^ 64 }
    ensures number { result.0 < length lengths.now }
    ensures start { result.1 ≡ total (take result.0 lengths.now) }
    ensures start_before { result.1 ≤ offset }
    ensures end { result.2 ≡ total (take (result.0 + 1) lengths.now) }
    ensures past { offset < result.2 }
    ensures separator { result.3 ≡ separator_of lengths.now result.0 }
{
    let mut number = 0;
    let mut start = 0;
    for paragraph in lengths {
        let end = start + paragraph.bytes();
        if offset < end {
            return (number, start, end, paragraph.separator as usize);
        }
        number += 1;
        start = end;
    }
    (number, start, start, 0)
}

/// Takes a spare block, and clears it.
fn spare(spares: &mut Vec<Block>) -> Block
    requires { 0 < vec_len spares.old }
    ensures fewer { vec_len spares.new + 1 ≡ vec_len spares.old }
    ensures empty { result ≡ [] }
{
    let mut block = spares.pop().unwrap();
    block.clear();
    block
}

impl Blocks {
    /// No block.
    pub fn new(alloc: Global) -> Blocks
        ensures { result ≡ record { blocks = []; spares = 0 } }
    {
        Blocks {
            blocks: Vec::new(alloc),
            spares: Vec::new(alloc),
        }
    }

    /// The paragraph that an offset falls in.
    #[tactic(auto, using(crate::proofs::index_lemmas::Flats::total_flat_more, crate::proofs::index_lemmas::Flats::length_flat_more, crate::proofs::index_lemmas::Flats::total_flat_front, crate::proofs::index_lemmas::Flats::length_flat_front))]
    pub fn find(&self, offset: usize) -> ParagraphSpan
        ensures { IsSpanAround (flat self.now.blocks) offset result }
    {
        let mut number = 0;
        let mut start = 0;
        for block in &self.blocks {
            let end = start + block.bytes();
            if offset < end {
                let (within, before, past, separator) = position_within(
                    block.lengths(),
                    offset - start,
                );
                return ParagraphSpan {
                    number: number + within,
                    start: start + before,
                    end: Some(start + past),
                    separator,
                };
            }
            number += block.lengths().len();
            start = end;
        }
        ParagraphSpan {
            number,
            start,
            end: None,
            separator: 0,
        }
    }

    /// Number of paragraphs, and their total length in bytes.
    #[tactic(auto, using(crate::proofs::index_lemmas::Flats::total_flat_more, crate::proofs::index_lemmas::Flats::length_flat_more, crate::proofs::index_lemmas::Flats::total_flat_front, crate::proofs::index_lemmas::Flats::length_flat_front))]
    pub fn size(&self) -> (usize, usize)
        ensures count { result.0 ≡ length (flat self.now.blocks) }
        ensures bytes { result.1 ≡ total (flat self.now.blocks) }
    {
        let mut count = 0;
        let mut bytes = 0;
        for block in &self.blocks {
            count += block.lengths().len();
            bytes += block.bytes();
        }
        (count, bytes)
    }

    /// The offset of the start of paragraph `number`, from 0, and its lengths; none if there are fewer.
    #[tactic(auto, using(crate::proofs::index_lemmas::Flats::total_flat_more, crate::proofs::index_lemmas::Flats::length_flat_more, crate::proofs::index_lemmas::Flats::total_flat_front, crate::proofs::index_lemmas::Flats::length_flat_front))]
    pub fn get(&self, number: usize) -> Option<(usize, Lengths)>
        ensures { MatchOption result (length (flat self.now.blocks) ≤ number)
            (λ p. (number < length (flat self.now.blocks))
            × (p.0 ≡ total (take number (flat self.now.blocks)))
            × (p.1 ≡ get_or (flat self.now.blocks) number p.1)) }
    {
        let mut left = number;
        let mut start = 0;
        for block in &self.blocks {
            let lengths = block.lengths();
            if left < lengths.len() {
                return Some((start + total(&lengths[..left]), lengths[left]));
            }
            left -= lengths.len();
            start += block.bytes();
        }
        None
    }

    /// The paragraphs of block `at`, from 0; none if there are fewer blocks.
    pub fn block(&self, at: usize) -> Option<&[Lengths]>
        ensures lent { MatchOption result (length self.now.blocks ≤ at) (λ ls. (at < length self.now.blocks) × (ls.now ≡ get_or self.now.blocks at [])) }
        ensures few { length self.now.blocks < 2 ^ 64 }
        ensures few_paragraphs { length (flat self.now.blocks) < 2 ^ 64 }
    {
        Some(self.blocks.get(at)?.lengths())
    }

    /// The block of paragraph `number`, and the paragraph's index in it, all from 0. After the last paragraph, the number of
    /// blocks and 0.
    #[tactic(auto, using(crate::proofs::index_lemmas::Flats::length_flat_more, crate::proofs::index_lemmas::Flats::length_flat_front))]
    pub fn seek(&self, number: usize) -> (usize, usize)
        requires { number ≤ length (flat self.now.blocks) }
        ensures block { result.0 ≤ length self.now.blocks }
        ensures number { number ≡ length (flat (take result.0 self.now.blocks)) + result.1 }
        ensures within { (result.1 ≡ 0) ⊎ ((result.0 < length self.now.blocks) × (result.1 < length (get_or self.now.blocks result.0 []))) }
        ensures held { result.0 < length self.now.blocks → result.1 < length (get_or self.now.blocks result.0 []) }
        ensures behind { length self.now.blocks ≤ result.0 → result.1 ≡ 0 }
    {
        let mut left = number;
        for (i, block) in self.blocks.iter().enumerate() {
            let count = block.lengths().len();
            if left < count {
                return (i, left);
            }
            left -= count;
        }
        (self.blocks.len(), 0)
    }

    /// Reserves room in the lists for a number of spare blocks.
    fn reserve(&mut self, spares: usize) -> Result<(), AllocError>
        ensures blocks { self.new.blocks ≡ self.old.blocks }
        ensures spares { self.new.spares ≡ self.old.spares }
    {
        self.spares.reserve(spares)?;
        self.blocks.reserve(spares)?;
        Ok(())
    }

    /// Allocates a spare block.
    fn add_spare(&mut self) -> Result<(), AllocError>
        ensures blocks { self.new.blocks ≡ self.old.blocks }
        ensures ok { OnOk result (self.new.spares ≡ self.old.spares + 1) }
        ensures err { OnErr result (self.new.spares ≡ self.old.spares) }
    {
        let alloc = *self.blocks.allocator();
        self.blocks.reserve(self.spares.len() + 1)?;
        let block = Block::new(alloc)?;
        self.spares.push(block)?;
        Ok(())
    }

    /// Allocates spare blocks until there are `spares`. If memory runs out, it keeps those already allocated.
    pub fn make_spares(&mut self, spares: usize) -> Result<(), AllocError>
        ensures blocks { self.new.blocks ≡ self.old.blocks }
        ensures no_fewer { self.old.spares ≤ self.new.spares }
        ensures enough { OnOk result (spares ≤ self.new.spares) }
    {
        let missing = spares > self.spares.len();
        if missing {
            // The lists grow first, so that no spare block lies below them, where its memory could not be given back.
            self.reserve(spares)?;
        }
        for _made in self.spares.len()..spares {
            self.add_spare()?;
        }
        if missing {
            // The oldest block is used first, so that memory after the used ones can be given back.
            self.spares.reverse();
        }
        Ok(())
    }

    /// Frees all spare blocks but `SPARES_KEPT`.
    pub fn release(&mut self)
        ensures { self.new.blocks ≡ self.old.blocks }
    {
        if self.spares.len() <= SPARES_KEPT {
            return;
        }
        // The newest block is freed last, so that the memory after those in use goes back at once.
        self.spares.reverse();
        self.spares.truncate(SPARES_KEPT);
        self.spares.shrink_to(SPARES_KEPT);
        self.blocks.shrink_to(self.blocks.len() + self.spares.len());
    }

    /// Splits the block of paragraph `number`, from 0, so that the paragraph begins a block, and returns this block's number.
    /// After the last paragraph it returns the number of blocks.
    fn cut(&mut self, number: usize) -> usize
        requires spare { 0 < self.old.spares }
        requires inside { number ≤ length (flat self.old.blocks) }
        ensures block { result ≤ length self.new.blocks }
        ensures paragraphs { flat self.new.blocks ≡ flat self.old.blocks }
        ensures front { flat (take result self.new.blocks) ≡ take number (flat self.old.blocks) }
        ensures back { flat (drop result self.new.blocks) ≡ drop number (flat self.old.blocks) }
        ensures spares { self.old.spares ≤ self.new.spares + 1 }
        ensures before { (k : ℕ) → k ≤ length self.old.blocks → length (flat (take k self.old.blocks)) ≤ number
            → (take k self.new.blocks ≡ take k self.old.blocks) × (k ≤ length self.new.blocks) }
    {
        let (block, within) = self.seek(number);
        if within == 0 {
            return block;
        }
        let spare = spare(&mut self.spares);
        cut_at(&mut self.blocks, block, within, spare);
        block + 1
    }

    /// Inserts a paragraph at a position among the blocks, and returns the position after it.
    pub fn push(&mut self, at: usize, paragraph: Lengths) -> usize
        requires position { at ≤ length self.old.blocks }
        requires room { 0 < room_at self.old at }
        requires short { total (flat self.old.blocks) + bytes_of paragraph < 2 ^ 64 }
        requires few { length (flat self.old.blocks) + 1 < 2 ^ 64 }
        ensures position { result ≤ length self.new.blocks }
        ensures front { flat (take result self.new.blocks) ≡ flat (take at self.old.blocks) ++ paragraph ∷ [] }
        ensures back { flat (drop result self.new.blocks) ≡ flat (drop at self.old.blocks) }
        ensures room { room_at self.new result + 1 ≡ room_at self.old at }
    {
        if at > 0 && self.blocks[at - 1].has_room() {
            push_at(&mut self.blocks, at - 1, paragraph);
            return at;
        }
        let mut block = spare(&mut self.spares);
        block.push(paragraph);
        self.blocks.insert(at, block).unwrap();
        at + 1
    }

    /// Removes the paragraphs `from..to`, and returns their former position among the blocks.
    pub fn take_out(&mut self, from: usize, to: usize) -> usize
        requires spares { 2 ≤ self.old.spares }
        requires order { from ≤ to }
        requires inside { to ≤ length (flat self.old.blocks) }
        ensures position { result ≤ length self.new.blocks }
        ensures front { flat (take result self.new.blocks) ≡ take from (flat self.old.blocks) }
        ensures back { flat (drop result self.new.blocks) ≡ drop to (flat self.old.blocks) }
        ensures spares { self.old.spares ≤ self.new.spares + 2 }
    {
        let first = self.cut(from);
        let last = self.cut(to);
        if first < last {
            remove_blocks(&mut self.blocks, first, last);
        }
        first
    }

    /// Joins the blocks before and after a position, if their paragraphs fit in one block.
    pub fn join(&mut self, at: usize)
        ensures paragraphs { flat self.new.blocks ≡ flat self.old.blocks }
        ensures spares { self.new.spares ≡ self.old.spares }
    {
        if at == 0 || at >= self.blocks.len() {
            return;
        }
        let behind = self.blocks[at].lengths().len();
        if self.blocks[at - 1].lengths().len() + behind <= BLOCK_CAPACITY {
            join_at(&mut self.blocks, at - 1);
        }
    }
}
