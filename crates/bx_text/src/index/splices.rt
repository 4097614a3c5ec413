//! Splits, extends, joins and removes blocks of a list. `at` is the number of a block in it, from 0.

ghost use Rattle.std.specs.Prelude.{◌≡◌, [], ◌∷◌, ◌++◌, ◌+◌, ◌<◌, ◌≤◌, ◌^◌, length, take, drop, get_or, vec_len, vec_capacity};
ghost use Rattle.bx_text.specs.index.Capacity.{block_capacity};
ghost use Rattle.bx_text.specs.index.Paragraphs.{bytes_of, total};

use crate::index::block::Block;
use crate::index::lengths::Lengths;

/// Splits a block before the paragraph with the index `within`. Its second part goes into a spare block.
pub fn cut_at(blocks: &mut Vec<Block>, at: usize, within: usize, spare: Block)
    requires position { at < vec_len blocks.old }
    requires inside { within ≤ length (get_or blocks.old.items at []) }
    requires room { vec_len blocks.old < vec_capacity blocks.old }
    ensures items { blocks.new.items
        ≡ take at blocks.old.items
        ++ take within (get_or blocks.old.items at []) ∷ drop within (get_or blocks.old.items at []) ∷ drop (at + 1) blocks.old.items }
    ensures len { vec_len blocks.new ≡ vec_len blocks.old + 1 }
    ensures capacity { vec_capacity blocks.old ≤ vec_capacity blocks.new }
{
    let back = blocks[at].cut(within, spare);
    blocks.insert(at + 1, back).unwrap();
}

/// Appends a paragraph to a block.
#[tactic(auto, using(crate::proofs::index_lemmas::Written::set_parts))]
pub fn push_at(blocks: &mut Vec<Block>, at: usize, paragraph: Lengths)
    requires position { at < vec_len blocks.old }
    requires room { length (get_or blocks.old.items at []) < block_capacity }
    requires short { total (get_or blocks.old.items at []) + bytes_of paragraph < 2 ^ 64 }
    ensures items { blocks.new.items ≡ take at blocks.old.items ++ (get_or blocks.old.items at [] ++ paragraph ∷ []) ∷ drop (at + 1) blocks.old.items }
    ensures len { vec_len blocks.new ≡ vec_len blocks.old }
    ensures capacity { vec_capacity blocks.old ≤ vec_capacity blocks.new }
{
    blocks[at].push(paragraph);
}

/// Appends the next block to a block, and removes it.
#[tactic(auto, using(crate::proofs::index_lemmas::Written::join_parts))]
pub fn join_at(blocks: &mut Vec<Block>, at: usize)
    requires position { at + 1 < vec_len blocks.old }
    requires room { length (get_or blocks.old.items at []) + length (get_or blocks.old.items (at + 1) []) ≤ block_capacity }
    requires short { total (get_or blocks.old.items at []) + total (get_or blocks.old.items (at + 1) []) < 2 ^ 64 }
    ensures items { blocks.new.items
        ≡ take at blocks.old.items
        ++ (get_or blocks.old.items at [] ++ get_or blocks.old.items (at + 1) []) ∷ drop (at + 2) blocks.old.items }
    ensures len { vec_len blocks.new + 1 ≡ vec_len blocks.old }
    ensures capacity { vec_capacity blocks.old ≤ vec_capacity blocks.new }
{
    let next = blocks.remove(at + 1);
    blocks[at].append(&next);
}

/// Removes the blocks `from..to`.
pub fn remove_blocks(blocks: &mut Vec<Block>, from: usize, to: usize)
    requires order { from ≤ to }
    requires inside { to ≤ vec_len blocks.old }
    ensures items { blocks.new.items ≡ take from blocks.old.items ++ drop to blocks.old.items }
    ensures len { vec_len blocks.new ≤ vec_len blocks.old }
    ensures capacity { vec_capacity blocks.new ≡ vec_capacity blocks.old }
{
    blocks.drain(from..to);
}
