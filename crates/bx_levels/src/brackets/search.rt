//! A search for bracket pairs (BD16) that takes one character at a time, so that no list of a sequence's characters is needed.
ghost use Rattle.std.specs.Prelude.{◌≡◌, ℕ, ◌+◌, ◌^◌, ◌<◌, ◌≤◌, ◌⊎◌, IfOk, OnOk, OnErr, IfSome, List, length, [], false, find, replicate, Option, Some};
ghost use Rattle.bx_ucd.specs.Data.{Data};
ghost use Rattle.bx_ucd.specs.declared.class.Class.{Class};
ghost use Rattle.bx_ucd.specs.Class.{direction};
ghost use Rattle.bx_ucd.specs.declared.data.Side.{Side};
ghost use Rattle.bx_ucd.specs.declared.data.Side.TheVariants.{Opener, Closer};
ghost use Rattle.bx_levels.specs.brackets.Pairs.{bracket_at, pairs};
ghost use Rattle.bx_levels.specs.brackets.Resolve.{resolve_pairs};
ghost use Rattle.bx_levels.specs.brackets.Search.{Searching, IsSearched};
ghost use Rattle.bx_levels.specs.brackets.Search.{progress, turn, after, pairs_after, pairs_in, with_closer, index_of, is_for, left_by, found_by};

use crate::brackets::open_stack::{OpenStack, bracket_at, canonical};
use crate::brackets::resolve::resolve_closers;
use bx_common::OutOfMemory;
use bx_ucd::{BidiData, Class, Side};
use std::alloc::{AllocError, Global};
use std::marker::Model;

/// Fills the list with `count` entries 0, which mean no closer, since an opener comes before its closer. Capacity grows to the
/// need, and by a quarter at least.
// Not inlined: it runs once a search, and the loop over the characters stays short.
#[inline(never)]
fn make_entries(closers: &mut Vec<u32>, count: usize) -> Result<(), AllocError>
    requires none { length closers.old.items ≡ 0 }
    ensures ok { OnOk result (closers.new.items ≡ replicate count 0) }
    ensures err { OnErr result (closers.new.items ≡ closers.old.items) }
{
    let room = closers.capacity();
    if count > room {
        closers.reserve_exact(count.max(room.saturating_add(room / 4)))?;
    }
    closers.resize(count, 0)
}

/// Makes the entries at the first opener of a search; `count` is the number of the sequence's characters.
fn need_entries(closers: &mut Vec<u32>, count: usize) -> Result<(), AllocError>
    requires long { (length closers.old.items ≡ 0) ⊎ (length closers.old.items ≡ count) }
    ensures long { OnOk result (length closers.new.items ≡ count) }
    ensures pairs { pairs_in 0 closers.new.items ≡ pairs_in 0 closers.old.items }
    ensures err { OnErr result (closers.new.items ≡ closers.old.items) }
    ensures searched { (j : ℕ) (os : List (ℕ × ℕ)) → j < count → IsSearched count j os closers.old.items → IsSearched count j os closers.new.items }
{
    if closers.is_empty() {
        make_entries(closers, count)?;
    }
    Ok(())
}

/// Takes the opener at `index` of a sequence of `count` characters; `closer` is its counterpart. True if the search ends here
/// because the stack is full.
#[inline(always)]
fn meet_opener(
    open: &mut OpenStack,
    closers: &mut Vec<u32>,
    count: usize,
    index: usize,
    closer: char,
) -> Result<bool, AllocError>
    requires searched { IsSearched count index «open».old closers.old.items }
    requires within { index < count }
    ensures searched { IsSearched count (index + 1) «open».new closers.new.items }
    ensures turn { IfOk result (λ r. progress «open».new (pairs_in 0 closers.new.items) r
        ≡ turn index 0 (Some (Opener, closer)) (progress «open».old (pairs_in 0 closers.old.items) false)) }
    ensures same_open { OnErr result («open».new ≡ «open».old) }
    ensures same_closers { OnErr result (closers.new.items ≡ closers.old.items) }
{
    if open.is_full() {
        return Ok(true);
    }
    need_entries(closers, count)?;
    open.push(index, canonical(closer));
    Ok(false)
}

/// Notes the index of a closer at the index of its opener, if it has one.
fn note_closer(closers: &mut Vec<u32>, opener: Option<usize>, closer: usize)
    requires within { IfSome opener (λ k. k < length closers.old.items) }
    requires small { closer < 2 ^ 32 }
    ensures { closers.new.items ≡ with_closer opener closer closers.old.items }
{
    if let Some(k) = opener {
        closers[k] = closer as u32;
    }
}

/// Takes the closer at `index`; `closer` is the character that it is compared as.
#[inline(always)]
#[tactic(auto, using(crate::proofs::brackets_lemmas::Closers::found_pair))]
fn meet_closer(
    open: &mut OpenStack,
    closers: &mut Vec<u32>,
    count: usize,
    index: usize,
    closer: char,
)
    requires searched { IsSearched count index «open».old closers.old.items }
    requires within { index < count }
    requires small { count ≤ 2 ^ 32 }
    ensures searched { IsSearched count (index + 1) «open».new closers.new.items }
    ensures left { «open».new ≡ left_by (find (is_for closer) «open».old) closer «open».old }
    ensures pairs { pairs_in 0 closers.new.items ≡ found_by (find (is_for closer) «open».old) index (pairs_in 0 closers.old.items) }
{
    let opener = open.close(closer);
    note_closer(closers, opener, index);
}

/// Takes the bracket `c` at `index`; `bracket` is its side and its counterpart. True if the search ends here because the stack is
/// full.
#[inline(always)]
fn meet_bracket(
    open: &mut OpenStack,
    closers: &mut Vec<u32>,
    count: usize,
    index: usize,
    c: char,
    bracket: (Side, char),
) -> Result<bool, AllocError>
    requires searched { IsSearched count index «open».old closers.old.items }
    requires within { index < count }
    requires small { count ≤ 2 ^ 32 }
    ensures searched { IsSearched count (index + 1) «open».new closers.new.items }
    ensures turn { IfOk result (λ r. progress «open».new (pairs_in 0 closers.new.items) r
        ≡ turn index c (Some bracket) (progress «open».old (pairs_in 0 closers.old.items) false)) }
    ensures same_open { OnErr result («open».new ≡ «open».old) }
    ensures same_closers { OnErr result (closers.new.items ≡ closers.old.items) }
{
    match bracket {
        (Side::Opener, closer) => meet_opener(open, closers, count, index, closer),
        (Side::Closer, _) => {
            meet_closer(open, closers, count, index, canonical(c));
            Ok(false)
        }
    }
}

/// A search for bracket pairs, and the pairs found. Its buffers are reused from sequence to sequence.
#[derive(Drop)]
pub struct PairSearch {
    openers: OpenStack,
    /// At each opener's index, the index of its closer; 0 elsewhere. Empty before the first opener.
    closers: Vec<u32>,
    /// The number of characters of the sequence.
    count: usize,
    /// The first index not taken yet.
    next: usize,
    /// Whether the search has ended at a full stack: later characters give no pair.
    is_over: bool,
}

// Contracts see the progress of the search.
impl Model for PairSearch {
    ghost Value = { Searching };

    ghost view = { λ s. record { progress = progress s.openers (pairs_in 0 s.closers.items) s.is_over; next = s.next; count = s.count } };

    ghost invariant = { λ s. (s.count ≤ 2 ^ 32) × IsSearched s.count s.next s.openers s.closers.items };
}

impl PairSearch {
    /// A search of an empty sequence.
    pub fn new(alloc: Global) -> Self {
        PairSearch {
            openers: OpenStack::new(),
            closers: Vec::new(alloc),
            count: 0,
            next: 0,
            is_over: false,
        }
    }

    /// Begins a search of a sequence of `count` characters, whose indexes must fit in 4 bytes. Does not allocate.
    pub fn begin(&mut self, count: usize)
        requires small { count ≤ 2 ^ 32 }
        ensures next { self.new.next ≡ 0 }
        ensures count { self.new.count ≡ count }
        ensures pairs { (ucd : Data) (cs : List ℕ) (ts : List Class) → pairs_after ucd self.new.progress 0 cs ts
            ≡ pairs ucd cs ts }
    {
        self.openers.clear();
        self.closers.clear();
        self.count = count;
        self.next = 0;
        self.is_over = false;
    }

    /// Takes the character at `index`, with its current type. Characters of other types than ON may be left out.
    /// Allocates at the first opener, 4 bytes per character of the longest sequence so far. A failed allocation is the only
    /// error; it leaves the search unchanged, and the call can be repeated.
    #[inline(always)]
    pub fn meet<D: BidiData>(
        &mut self,
        index: usize,
        c: char,
        t: Class,
        tables: &D,
    ) -> Result<(), OutOfMemory>
        requires next { self.old.next ≤ index }
        requires within { index < self.old.count }
        ensures progress { OnOk result (self.new.progress ≡ after index c (bracket_at (D.data tables.now) c t) self.old.progress) }
        ensures next { self.new.next ≤ index + 1 }
        ensures count { self.new.count ≡ self.old.count }
        ensures err { OnErr result (self.new ≡ self.old) }
    {
        if self.is_over {
            return Ok(());
        }
        let Some(bracket) = bracket_at(tables, c, t) else {
            return Ok(());
        };
        self.is_over = meet_bracket(
            &mut self.openers,
            &mut self.closers,
            self.count,
            index,
            c,
            bracket,
        )?;
        self.next = index + 1;
        Ok(())
    }

    /// Resolves the pairs found in place, pair by pair (N0). `types` are the types after W7, `was_nsm` tells which characters
    /// were NSM before W1, and `sos` is the type before the sequence, whose level is `level`.
    pub fn resolve(&self, types: &mut [Class], was_nsm: &[bool], level: u8, sos: Class)
        requires count { length types.old ≡ self.now.count }
        requires as_long { length was_nsm.now ≡ length types.old }
        ensures { types.new ≡ resolve_pairs (direction level) sos was_nsm.now self.now.progress.pairs types.old }
    {
        resolve_closers(types, was_nsm, &self.closers, level, sos);
    }
}
