//! The stack of openers, and what a character is as a bracket (BD14 to BD16).
ghost use Rattle.std.specs.Prelude.{◌≡◌, ℕ, ◌<◌, IfSome, length, List, [], ◌∷◌, reverse, take, not, nat_lt, find};
ghost use Rattle.bx_levels.specs.brackets.Pairs.{bracket_room, canonical, bracket_at};
ghost use Rattle.bx_levels.specs.brackets.Search.{AreMissed, below_first, opener_at, is_for, index_of, left_by};

use arrayvec::ArrayVec;
use bx_ucd::{BidiData, Class, Side};
use std::marker::Model;

/// The character that a bracket is compared as: U+2329 and U+232A have canonical equivalents (BD16).
pub fn canonical(c: char) -> char
    ensures { result ≡ canonical c }
{
    match c {
        '\u{2329}' => '\u{3008}',
        '\u{232A}' => '\u{3009}',
        _ => c,
    }
}

/// The side and counterpart of a character that is a bracket of type ON.
#[inline(always)]
pub fn bracket_at<D: BidiData>(tables: &D, c: char, t: Class) -> Option<(Side, char)>
    ensures { result ≡ bracket_at (D.data tables.now) c t }
{
    match t {
        Class::ON => tables.bracket(c),
        _ => None,
    }
}

/// The capacity of the stack of openers (BD16).
const BRACKET_ROOM: usize = 63;

/// The length of `missed`, where a closer is noted at its code's remainder by this number. By 31 the closers `)`, `]`, `}` and
/// all from U+3009 to U+301B differ in their remainders. Two closers with one remainder only cost time.
const REMAINDERS: usize = 31;

/// The stack of unmatched openers, each its index in the sequence and the closer that it waits for, as `canonical` gives it.
#[derive(Drop)]
pub struct OpenStack {
    openers: ArrayVec<(usize, char), BRACKET_ROOM>,
    /// At each remainder, a closer that no opener waits for, so that repeats of it skip the search.
    missed: [Option<char>; REMAINDERS],
}

// Contracts see the openers, the last one first.
impl Model for OpenStack {
    ghost Value = { List (ℕ × ℕ) };

    ghost view = { λ s. reverse s.openers.items };

    ghost invariant = { λ s. AreMissed s.missed (reverse s.openers.items) };
}

/// The index in the list `openers` of the last one that waits for this closer.
#[tactic(auto, using(crate::proofs::brackets_lemmas::Close::find_here, crate::proofs::brackets_lemmas::Close::find_more, crate::proofs::brackets_lemmas::Close::below_here, crate::proofs::brackets_lemmas::Close::below_more, crate::proofs::brackets_lemmas::Close::take_it))]
fn last_for(openers: &[(usize, char)], closer: char) -> Option<usize>
    ensures within { IfSome result (λ k. k < length openers.now) }
    ensures found { find (is_for closer) (reverse openers.now) ≡ opener_at openers.now result }
    ensures left { IfSome result (λ k. below_first (is_for closer) (reverse openers.now) ≡ reverse (take k openers.now)) }
{
    let mut k = openers.len();
    while k > 0 {
        k -= 1;
        if openers[k].1 == closer {
            return Some(k);
        }
    }
    None
}

impl OpenStack {
    /// An empty stack.
    pub fn new() -> Self
        ensures { result ≡ [] }
    {
        OpenStack {
            openers: ArrayVec::new(),
            missed: [None; REMAINDERS],
        }
    }

    /// Pops all openers.
    pub fn clear(&mut self)
        ensures { self.new ≡ [] }
    {
        self.openers.clear();
    }

    /// Whether the stack is full.
    pub fn is_full(&self) -> bool
        ensures { result ≡ not (nat_lt (length self.now) bracket_room) }
    {
        self.openers.is_full()
    }

    /// Pushes the opener at `index` of the sequence, which waits for `closer`.
    pub fn push(&mut self, index: usize, closer: char)
        requires { length self.old < bracket_room }
        ensures { self.new ≡ (index, closer) ∷ self.old }
    {
        self.missed[closer as usize % REMAINDERS] = None;
        self.openers.push((index, closer));
    }

    /// Pops the last opener that waits for the closer, and all openers above it. Returns its index in the sequence, or `None` if no
    /// opener waits for the closer.
    #[inline(always)]
    pub fn close(&mut self, closer: char) -> Option<usize>
        ensures index { result ≡ index_of (find (is_for closer) self.old) }
        ensures left { self.new ≡ left_by (find (is_for closer) self.old) closer self.old }
    {
        let remainder = closer as usize % REMAINDERS;
        if self.missed[remainder] == Some(closer) {
            return None;
        }
        match last_for(&self.openers, closer) {
            Some(k) => {
                let (slot, _) = self.openers[k];
                self.openers.truncate(k);
                Some(slot)
            }
            None => {
                self.missed[remainder] = Some(closer);
                None
            }
        }
    }
}
