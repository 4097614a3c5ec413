//! Where paragraphs are stored in the blocks: the spots that a walk goes through.

ghost use Rattle.std.specs.Prelude.{◌≡◌, ◌+◌, ◌-◌, ◌<◌, ◌≤◌, [], length, take, get_or, MatchOption};
ghost use Rattle.bx_text.specs.index.Flat.{flat};
ghost use Rattle.bx_text.specs.index.Spots.{IsSpot, closed};

use crate::index::blocks::Blocks;
use crate::index::lengths::Lengths;

/// Where a paragraph is stored: in a block, or after all blocks if it is the last of the text.
#[derive(Clone, Copy)]
pub struct Spot {
    /// The paragraph's number, from 0.
    pub number: usize,
    /// The number of its block, from 0; for the text's last paragraph, the number of blocks.
    pub block: usize,
    /// Its index in the block, from 0.
    pub within: usize,
}

/// The spot of the paragraph with a number, from 0.
pub fn spot_of(blocks: &Blocks, number: usize) -> Spot
    requires { number ≤ length (flat blocks.now.blocks) }
    ensures number { result.number ≡ number }
    ensures stands { IsSpot blocks.now.blocks result }
{
    let (block, within) = blocks.seek(number);
    Spot {
        number,
        block,
        within,
    }
}

/// The number of the first block from the block `from` on that has a paragraph; the number of blocks if none has.
#[tactic(auto, using(crate::proofs::index_lemmas::Flats::length_flat_more))]
fn first_filled(blocks: &Blocks, from: usize) -> usize
    requires { from ≤ length blocks.now.blocks }
    ensures inside { result ≤ length blocks.now.blocks }
    ensures none_between { length (flat (take result blocks.now.blocks)) ≡ length (flat (take from blocks.now.blocks)) }
    ensures filled { result < length blocks.now.blocks → 0 < length (get_or blocks.now.blocks result []) }
{
    let mut at = from;
    while let Some(lengths) = blocks.block(at) {
        if !lengths.is_empty() {
            return at;
        }
        at += 1;
    }
    at
}

/// The number of the last block before the block `to` that has a paragraph, and how many paragraphs it has.
#[tactic(auto, using(crate::proofs::index_lemmas::Flats::length_flat_more))]
fn last_filled(blocks: &Blocks, to: usize) -> (usize, usize)
    requires inside { to ≤ length blocks.now.blocks }
    requires some { 0 < length (flat (take to blocks.now.blocks)) }
    ensures inside { result.0 < length blocks.now.blocks }
    ensures none_between { length (flat (take result.0 blocks.now.blocks)) + result.1 ≡ length (flat (take to blocks.now.blocks)) }
    ensures count { result.1 ≡ length (get_or blocks.now.blocks result.0 []) }
    ensures filled { 0 < result.1 }
{
    let mut at = to;
    while at > 0 {
        at -= 1;
        if let Some(lengths) = blocks.block(at) {
            if !lengths.is_empty() {
                return (at, lengths.len());
            }
        }
    }
    (0, 0)
}

/// The spot of the next paragraph; none after the last.
#[tactic(auto, using(crate::proofs::index_lemmas::Flats::length_flat_more))]
pub fn next_spot(blocks: &Blocks, spot: Spot) -> Option<Spot>
    requires { IsSpot blocks.now.blocks spot }
    ensures { MatchOption result (spot.number ≡ length (flat blocks.now.blocks))
        (λ s. (s.number ≡ spot.number + 1) × (spot.number < length (flat blocks.now.blocks)) × IsSpot blocks.now.blocks s) }
{
    let lengths = blocks.block(spot.block)?;
    let number = spot.number + 1;
    let within = spot.within + 1;
    if within < lengths.len() {
        return Some(Spot {
            number,
            block: spot.block,
            within,
        });
    }
    Some(Spot {
        number,
        block: first_filled(blocks, spot.block + 1),
        within: 0,
    })
}

/// The spot of the previous paragraph; none before the first.
pub fn previous_spot(blocks: &Blocks, spot: Spot) -> Option<Spot>
    requires { IsSpot blocks.now.blocks spot }
    ensures { MatchOption result (spot.number ≡ 0) (λ s. (s.number + 1 ≡ spot.number) × IsSpot blocks.now.blocks s) }
{
    if spot.number == 0 {
        return None;
    }
    let number = spot.number - 1;
    if spot.within > 0 {
        return Some(Spot {
            number,
            block: spot.block,
            within: spot.within - 1,
        });
    }
    let (block, count) = last_filled(blocks, spot.block);
    Some(Spot {
        number,
        block,
        within: count - 1,
    })
}

/// The paragraph at a spot. The text's last one has `last` bytes.
pub fn paragraph_at(blocks: &Blocks, last: u32, spot: Spot) -> Lengths
    requires { IsSpot blocks.now.blocks spot }
    ensures { result ≡ get_or (closed blocks.now.blocks last) spot.number result }
{
    match blocks.block(spot.block) {
        Some(lengths) => lengths[spot.within],
        None => Lengths {
            body: last,
            separator: 0,
        },
    }
}
