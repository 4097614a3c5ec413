//! All bracket pairs of a sequence at once (BD14 to BD16), and their types (N0). The editor does not run these, it meets one
//! character after another by `PairSearch`. With them the crate serves by itself as a library.
ghost use Rattle.std.specs.Prelude.{◌≡◌, ◌+◌, ◌≤◌, ◌++◌, ◌∷◌, drop, All, IfOk, OnOk, length, take, find, false};
ghost use Rattle.bx_ucd.specs.Class.{direction};
ghost use Rattle.bx_levels.specs.brackets.Pairs.{insert_pair, pairs};
ghost use Rattle.bx_levels.specs.brackets.Resolve.{resolve_pairs};
ghost use Rattle.bx_levels.specs.brackets.Search.{AreFound, AreSorted, IsPairWithin, found_by, is_for, left_by, progress, turn};

use crate::brackets::open_stack::{OpenStack, bracket_at, canonical};
use crate::brackets::resolve::{known_first, resolve_next};
use bx_common::OutOfMemory;
use bx_ucd::class::direction;
use bx_ucd::{BidiData, Class, Side};
use std::alloc::{AllocError, Global};

/// The position in the list `found`, of pairs sorted by opener, at which a new pair is inserted.
#[tactic(auto, using(crate::proofs::brackets_lemmas::Insert::insert_here, crate::proofs::brackets_lemmas::Insert::insert_start))]
fn index_for(found: &[(usize, usize)], pair: (usize, usize)) -> usize
    requires sorted { AreSorted 0 found.now }
    ensures within { result ≤ length found.now }
    ensures insert { insert_pair pair found.now ≡ take result found.now ++ pair ∷ drop result found.now }
{
    let mut k = found.len();
    while k > 0 {
        k -= 1;
        if found[k].0 <= pair.0 {
            return k + 1;
        }
    }
    0
}

/// Inserts a pair into pairs sorted by opener.
fn insert_pair(found: &mut Vec<(usize, usize)>, pair: (usize, usize)) -> Result<(), AllocError>
    requires sorted { AreSorted 0 found.old.items }
    ensures { OnOk result (found.new.items ≡ insert_pair pair found.old.items) }
{
    let k = index_for(found, pair);
    found.insert(k, pair)?;
    Ok(())
}

/// Takes the closer at `index`; `closer` is the character that it is compared as.
#[tactic(auto, using(crate::proofs::brackets_lemmas::Insert::close_some, crate::proofs::brackets_lemmas::Insert::close_none))]
fn meet_closer(
    open: &mut OpenStack,
    found: &mut Vec<(usize, usize)>,
    index: usize,
    closer: char,
) -> Result<(), AllocError>
    requires { AreFound index «open».old found.old.items }
    ensures open { OnOk result («open».new ≡ left_by (find (is_for closer) «open».old) closer «open».old) }
    ensures found { OnOk result (found.new.items ≡ found_by (find (is_for closer) «open».old) index found.old.items) }
    ensures later { OnOk result (AreFound (index + 1) «open».new found.new.items) }
{
    match open.close(closer) {
        Some(opener) => {
            insert_pair(found, (opener, index))?;
            Ok(())
        }
        None => Ok(()),
    }
}

/// Takes one character of a sequence, with its bracket. True if the search ends here because the stack is full.
#[tactic(auto, using(crate::proofs::brackets_lemmas::Insert::found_later, crate::proofs::brackets_lemmas::Insert::found_push))]
fn meet(
    open: &mut OpenStack,
    found: &mut Vec<(usize, usize)>,
    index: usize,
    c: char,
    bracket: Option<(Side, char)>,
) -> Result<bool, AllocError>
    requires { AreFound index «open».old found.old.items }
    ensures turn { IfOk result (λ r. progress «open».new found.new.items r ≡ turn index c bracket (progress «open».old found.old.items false)) }
    ensures later { OnOk result (AreFound (index + 1) «open».new found.new.items) }
{
    match bracket {
        None => Ok(false),
        Some((Side::Opener, closer)) => {
            if open.is_full() {
                return Ok(true);
            }
            open.push(index, canonical(closer));
            Ok(false)
        }
        Some((Side::Closer, _)) => {
            meet_closer(open, found, index, canonical(c))?;
            Ok(false)
        }
    }
}

/// The bracket pairs of a sequence (BD14 to BD16), from its characters and their current types. A pair is the indexes of
/// its opener and its closer in the sequence, and pairs are sorted by opener.
pub fn pairs<D: BidiData>(
    alloc: Global,
    chars: &[char],
    types: &[Class],
    tables: &D,
) -> Result<Vec<(usize, usize)>, OutOfMemory>
    requires { length chars.now ≡ length types.now }
    ensures pairs { IfOk result (λ v. v.items ≡ pairs (D.data tables.now) chars.now types.now) }
    ensures within { IfOk result (λ v. All (IsPairWithin (length types.now)) v.items) }
{
    let mut open = OpenStack::new();
    let mut found = Vec::new(alloc);
    for i in 0..chars.len() {
        let c = chars[i];
        let bracket = bracket_at(tables, c, types[i]);
        if meet(&mut open, &mut found, i, c, bracket)? {
            return Ok(found);
        }
    }
    Ok(found)
}

/// Resolves the bracket pairs of a sequence in place, pair by pair (N0). `types` are the types after W7; W3 leaves no AL,
/// and an AL passed in counts as neither direction. `was_nsm` tells which characters were NSM before W1, and `sos` is the
/// type before the sequence, whose level is `level`.
#[tactic(auto, using(crate::proofs::brackets_lemmas::Nsms::pairs_more, crate::proofs::brackets_lemmas::Nsms::pairs_all, crate::proofs::brackets_lemmas::Context::first_known))]
pub fn resolve_pairs(
    types: &mut [Class],
    was_nsm: &[bool],
    pairs: &[(usize, usize)],
    level: u8,
    sos: Class,
)
    requires within { All (IsPairWithin (length types.old)) pairs.now }
    requires as_long { length was_nsm.now ≡ length types.old }
    ensures { types.new ≡ resolve_pairs (direction level) sos was_nsm.now pairs.now types.old }
{
    let embedding = direction(level);
    let mut known = known_first(sos);
    for pair in pairs {
        resolve_next(types, was_nsm, embedding, sos, &mut known, *pair);
    }
}
