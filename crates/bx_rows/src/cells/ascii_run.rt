//! Runs of printable ASCII in a body: each byte, except maybe the last, which a combining mark may follow, is a unit of one
//! column.
ghost use Rattle.std.specs.Prelude.{◌≡◌, ◌≤◌, ◌<◌, ℕ, get_or, length, false, true};
ghost use Rattle.bx_common.specs.Characters.{is_ascii_printable};

use crate::cells::fitting::are_ascii_printable;
use bx_common::is_ascii_printable;

/// Bytes tested at once; 16 fill a vector register of 128 bits.
const BLOCK: usize = 16;

/// The byte offset after the whole blocks of printable ASCII that begin at `at`.
#[inline(always)]
#[tactic(auto, using(crate::proofs::cells_lemmas::Blocks::block_more))]
fn blocks_stop(bytes: &[u8], at: usize) -> usize
    requires { at ≤ length bytes.now }
    ensures order { at ≤ result }
    ensures inside { result ≤ length bytes.now }
    ensures printable { (i : ℕ) → at ≤ i → i < result → is_ascii_printable (get_or bytes.now i 0) ≡ true }
{
    let mut stop = at;
    while bytes.len() - stop >= BLOCK {
        let block = &bytes[stop..stop + BLOCK];
        if !are_ascii_printable(block) {
            return stop;
        }
        stop += BLOCK;
    }
    stop
}

/// The byte offset after the printable ASCII that begins at `at`.
pub fn printable_stop(bytes: &[u8], at: usize) -> usize
    requires { at ≤ length bytes.now }
    ensures order { at ≤ result }
    ensures inside { result ≤ length bytes.now }
    ensures printable { (i : ℕ) → at ≤ i → i < result → is_ascii_printable (get_or bytes.now i 0) ≡ true }
    ensures stops { result < length bytes.now → is_ascii_printable (get_or bytes.now result 0) ≡ false }
{
    let mut stop = blocks_stop(bytes, at);
    while stop < bytes.len() && is_ascii_printable(bytes[stop]) {
        stop += 1;
    }
    stop
}
