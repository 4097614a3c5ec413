//! All isolating run sequences of a body at once, each with its indexes (BD13, X10). The editor does not run this, it reads one
//! sequence after another by `SequenceWalk`. With it the crate serves by itself as a library.
ghost use Rattle.std.specs.Prelude.{◌≡◌, ◌<◌, ◌≤◌, ◌++◌, IfOk, OnOk, All, drop, length, slice_index, true};
ghost use Rattle.bx_levels.specs.embedding.LevelIndexes.{level_indexes, indexes_from};
ghost use Rattle.bx_levels.specs.embedding.Sequences.{RunSequence, sequences};
ghost use Rattle.bx_levels.specs.embedding.Stack.{max_depth};
ghost use Rattle.bx_levels.specs.embedding.Walk.{AreGiven};

use crate::embedding::entry::{Explicit, ExplicitChar};
use crate::embedding::walk::SequenceWalk;
use bx_common::OutOfMemory;
use bx_ucd::Class;
use smallvec::SmallVec;
use std::alloc::{AllocError, Global};
use std::marker::Model;

/// The indexes of a sequence. Up to 8, a chosen number, need no allocation.
type Indexes = SmallVec<usize, 8>;

/// An isolating run sequence: the indexes and the level of its characters, and the types before and after them (X10).
#[derive(Drop)]
pub struct Sequence {
    indexes: Indexes,
    level: u8,
    sos: Class,
    eos: Class,
}

impl Model for Sequence {
    ghost Value = { RunSequence };

    ghost view = { λ s. record { indexes = s.indexes.items; level = s.level; sos = s.sos; eos = s.eos } };
}

impl Sequence {
    /// The indexes of its characters in the paragraph, in order; they count characters from 0.
    pub fn indexes(&self) -> &[usize]
        ensures { result.now ≡ self.now.indexes }
    {
        self.indexes.as_slice()
    }

    /// The level of its characters.
    pub fn level(&self) -> u8
        ensures { result ≡ self.now.level }
    {
        self.level
    }

    /// The type before its first character, L or R (X10).
    pub fn sos(&self) -> Class
        ensures { result ≡ self.now.sos }
    {
        self.sos
    }

    /// The type after its last character, L or R (X10).
    pub fn eos(&self) -> Class
        ensures { result ≡ self.now.eos }
    {
        self.eos
    }

    /// Its first index, or 0, by which `sequences` sorts.
    fn first_index(&self) -> usize
        ensures { result ≡ slice_index self.now.indexes 0 }
    {
        match self.indexes.as_slice() {
            [] => 0,
            [first, ..] => *first,
        }
    }
}

/// Appends the indexes of the run of `level` that begins at index `first`.
fn add_run(
    indexes: &mut Indexes,
    kept: &[Option<ExplicitChar>],
    level: u8,
    first: usize,
) -> Result<(), AllocError>
    ensures { OnOk result (indexes.new.items ≡ indexes.old.items ++ level_indexes level first (drop first kept.now)) }
{
    let mut k = first;
    while k < kept.len() {
        if let Some(c) = kept[k] {
            if c.level != level {
                return Ok(());
            }
            indexes.push(k)?;
        }
        k += 1;
    }
    Ok(())
}

/// The indexes of the runs of one level that begin at the indexes `firsts`.
fn indexes_from(
    alloc: Global,
    kept: &[Option<ExplicitChar>],
    level: u8,
    firsts: &[usize],
) -> Result<Indexes, AllocError>
    ensures { IfOk result (λ v. v.items ≡ indexes_from level kept.now firsts.now) }
{
    let mut indexes = SmallVec::new(alloc);
    for first in firsts {
        add_run(&mut indexes, kept, level, *first)?;
    }
    Ok(indexes)
}

/// Collects the sequence that the walk lends.
fn lent_sequence(
    alloc: Global,
    walk: &SequenceWalk<'_>,
    kept: &[Option<ExplicitChar>],
) -> Result<Sequence, AllocError>
    requires lent { walk.now.has_current ≡ true }
    requires same { kept.now ≡ walk.now.explicit.kept.items }
    ensures { IfOk result (λ s. s ≡ walk.now.current) }
{
    let level = walk.level();
    Ok(Sequence {
        indexes: indexes_from(alloc, kept, level, walk.firsts())?,
        level,
        sos: walk.sos(),
        eos: walk.eos(),
    })
}

/// The sequences of a paragraph body, in the order in which they end.
fn ended_sequences(alloc: Global, explicit: &Explicit) -> Result<Vec<Sequence>, OutOfMemory>
    ensures { IfOk result (λ v. AreGiven v.items (sequences explicit.now.level explicit.now.classes.items explicit.now.kept.items)) }
{
    let mut walk = SequenceWalk::new(alloc, explicit);
    let mut all = Vec::new(alloc);
    while walk.advance()? {
        all.push(lent_sequence(alloc, &walk, &explicit.kept)?)?;
    }
    Ok(all)
}

/// The isolating run sequences of a paragraph body, sorted by first index, with their sos and eos (BD13, X10).
pub fn sequences(alloc: Global, explicit: &Explicit) -> Result<Vec<Sequence>, OutOfMemory>
    ensures sequences { IfOk result (λ v. v.items ≡ sequences explicit.now.level explicit.now.classes.items explicit.now.kept.items) }
    ensures low { IfOk result (λ v. All (λ s. s.level ≤ max_depth) v.items) }
    ensures within { IfOk result (λ v. All (λ s. All (λ p. p < length explicit.now.kept.items) s.indexes) v.items) }
{
    let mut all = ended_sequences(alloc, explicit)?;
    all.sort_by_key(|s| s.first_index())?;
    Ok(all)
}
