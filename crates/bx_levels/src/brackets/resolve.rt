//! The types of bracket pairs (N0), pair by pair. A range that one pair's search found clear of a direction is not searched again for
//! the next pair. `embedding` is the direction of the sequence's level, L or R.
ghost use Rattle.std.specs.Prelude.{◌≡◌, ◌+◌, ◌-◌, ◌<◌, ◌≤◌, length, reverse, take, drop, All};
ghost use Rattle.std.specs.List.{list_any};
ghost use Rattle.bx_ucd.specs.Class.{direction};
ghost use Rattle.bx_levels.specs.brackets.Clear.{IsClear, AreClear, IsKnown, known_first, AreSameFrom, between, clear_after};
ghost use Rattle.bx_levels.specs.brackets.Resolve.{change_bracket, context_of, counts_as, is_left, is_right, nearest, opposite, pair_direction, resolve_in};
ghost use Rattle.bx_levels.specs.brackets.Resolve.{resolve_pair, resolve_pairs};
ghost use Rattle.bx_levels.specs.brackets.Search.{IsPairWithin, pairs_in};

use bx_ucd::Class;
use bx_ucd::class::direction;

/// The other direction.
fn opposite(d: Class) -> Class
    ensures { result ≡ opposite d }
{
    match d {
        Class::L => Class::R,
        _ => Class::L,
    }
}

/// Whether a type counts as R: EN and AN do.
fn is_right(t: Class) -> bool
    ensures { result ≡ is_right t }
{
    matches!(t, Class::R | Class::EN | Class::AN)
}

/// Whether a type counts as the direction `d`.
fn counts_as(d: Class, t: Class) -> bool
    ensures { result ≡ counts_as d t }
{
    match d {
        Class::L => t == Class::L,
        _ => is_right(t),
    }
}

/// A range of indexes, `from..to`, without any type that counts as a direction.
#[derive(Clone, Copy)]
struct Clear {
    from: usize,
    to: usize,
}

/// A range clear of the embedding direction, and a range clear of the other direction.
#[derive(Clone, Copy)]
struct Clears {
    embedding: Clear,
    other: Clear,
}

/// Whether a type at an index in `from..to` counts as the direction `d`, and the range then known to be clear of it. Skips to the
/// end of `clear`, a range known to be clear of `d`, if `from` lies in it or at its end.
fn has(d: Class, clear: Clear, types: &[Class], from: usize, to: usize) -> (bool, Clear)
    requires within { to ≤ length types.now }
    requires known { IsClear d types.now clear }
    ensures found { result.0 ≡ list_any (counts_as d) (take (to - from) (drop from types.now)) }
    ensures clear { IsClear d types.now result.1 }
{
    let mut k = from;
    if clear.from <= from && from <= clear.to {
        k = clear.to;
    }
    while k < to && !counts_as(d, types[k]) {
        k += 1;
    }
    (k < to, Clear { from, to: k })
}

/// The part of a clear range between two changes, the first ending at `from` and the second beginning at `to`.
fn between(clear: Clear, from: usize, to: usize) -> Clear
    ensures { result ≡ between clear from to }
{
    Clear {
        from: clear.from.max(from),
        to: clear.to.min(to),
    }
}

/// The direction of the last type that counts as L or R, or `sos` if there is none.
#[tactic(auto, using(crate::proofs::brackets_lemmas::Nsms::nearest_left, crate::proofs::brackets_lemmas::Nsms::nearest_right, crate::proofs::brackets_lemmas::Nsms::nearest_none, crate::proofs::brackets_lemmas::Nsms::take_it))]
fn nearest(sos: Class, types: &[Class]) -> Class
    ensures { result ≡ nearest sos (reverse types.now) }
{
    let mut k = types.len();
    while k > 0 {
        k -= 1;
        if types[k] == Class::L {
            return Class::L;
        }
        if is_right(types[k]) {
            return Class::R;
        }
    }
    sos
}

/// The context of an index: the nearest direction before it. `known`, an index with its context, shortens the search if that index
/// is not greater.
#[tactic(auto, using(crate::proofs::brackets_lemmas::Context::context_later))]
fn context(sos: Class, known: (usize, Class), types: &[Class], index: usize) -> Class
    requires within { index ≤ length types.now }
    requires known { known.1 ≡ context_of sos types.now known.0 }
    ensures { result ≡ context_of sos types.now index }
{
    let (start, before) = known;
    if start <= index {
        nearest(before, &types[start..index])
    } else {
        nearest(sos, &types[..index])
    }
}

/// The direction that a pair takes in a context, if any, and the ranges then known to be clear.
fn pair_direction(
    embedding: Class,
    context: Class,
    clears: Clears,
    types: &[Class],
    pair: (usize, usize),
) -> (Option<Class>, Clears)
    requires within { IsPairWithin (length types.now) pair }
    requires known { AreClear embedding types.now clears }
    ensures direction { result.0 ≡ pair_direction embedding context (take (pair.1 - pair.0 - 1) (drop (pair.0 + 1) types.now)) }
    ensures clear { AreClear embedding types.now result.1 }
{
    let (open, close) = pair;
    let (found, clear) = has(embedding, clears.embedding, types, open + 1, close);
    let clears = Clears {
        embedding: clear,
        ..clears
    };
    if found {
        return (Some(embedding), clears);
    }
    let (found, clear) = has(opposite(embedding), clears.other, types, open + 1, close);
    let clears = Clears {
        other: clear,
        ..clears
    };
    if !found {
        return (None, clears);
    }
    if counts_as(embedding, context) {
        (Some(embedding), clears)
    } else {
        (Some(opposite(embedding)), clears)
    }
}

/// Sets the type of the bracket at index `p` and of the NSMs after it to `d`. Returns the index behind the last one changed.
#[tactic(auto, using(crate::proofs::brackets_lemmas::Nsms::nsms_more, crate::proofs::brackets_lemmas::Nsms::nsms_stop, crate::proofs::brackets_lemmas::Nsms::nsms_all, crate::proofs::brackets_lemmas::Nsms::nsms_start))]
fn change_bracket(types: &mut [Class], was_nsm: &[bool], d: Class, p: usize) -> usize
    requires within { p < length types.old }
    requires as_long { length was_nsm.now ≡ length types.old }
    ensures value { types.new ≡ change_bracket d was_nsm.now types.old p }
    ensures rest { AreSameFrom result types.old types.new }
{
    types[p] = d;
    for k in p + 1..types.len() {
        if !was_nsm[k] {
            return k;
        }
        types[k] = d;
    }
    types.len()
}

/// The ranges that stay clear after the brackets of a pair, with the NSMs after them, took the direction `d`: `from..to` is
/// between them.
fn clear_after(embedding: Class, d: Class, clears: Clears, from: usize, to: usize) -> Clears
    ensures { result ≡ clear_after embedding d clears from to }
{
    if counts_as(embedding, d) {
        Clears {
            embedding: between(clears.embedding, from, to),
            ..clears
        }
    } else {
        Clears {
            other: between(clears.other, from, to),
            ..clears
        }
    }
}

/// Gives a pair, the indexes of its opener and its closer, its direction in a context. Returns the ranges then known to be clear.
fn resolve_in(
    types: &mut [Class],
    was_nsm: &[bool],
    embedding: Class,
    context: Class,
    clears: Clears,
    pair: (usize, usize),
) -> Clears
    requires within { IsPairWithin (length types.old) pair }
    requires as_long { length was_nsm.now ≡ length types.old }
    requires known { AreClear embedding types.old clears }
    ensures types { types.new ≡ resolve_in embedding context was_nsm.now pair types.old }
    ensures clear { AreClear embedding types.new result }
{
    let (open, close) = pair;
    let whole: &[Class] = &types[..];
    let (taken, clears) = pair_direction(embedding, context, clears, whole, pair);
    match taken {
        None => clears,
        Some(d) => {
            let end = change_bracket(types, was_nsm, d, open);
            change_bracket(types, was_nsm, d, close);
            clear_after(embedding, d, clears, end, close)
        }
    }
}

/// State that a walk over the pairs carries: the context of an index, and the clear ranges.
#[derive(Clone, Copy)]
pub(crate) struct Known {
    /// The index of the last pair's opener, 0 before the first pair.
    index: usize,
    /// The nearest direction before `index`.
    context: Class,
    clears: Clears,
}

/// The state before the first pair.
pub(crate) fn known_first(sos: Class) -> Known
    ensures { result ≡ known_first sos }
{
    let nothing = Clear { from: 0, to: 0 };
    let clears = Clears {
        embedding: nothing,
        other: nothing,
    };
    Known {
        index: 0,
        context: sos,
        clears,
    }
}

/// Gives the next pair its types, and updates the state.
#[inline(always)]
pub(crate) fn resolve_next(
    types: &mut [Class],
    was_nsm: &[bool],
    embedding: Class,
    sos: Class,
    known: &mut Known,
    pair: (usize, usize),
)
    requires within { IsPairWithin (length types.old) pair }
    requires as_long { length was_nsm.now ≡ length types.old }
    requires known { IsKnown embedding sos types.old known.old }
    ensures types { types.new ≡ resolve_pair embedding sos was_nsm.now pair types.old }
    ensures known { IsKnown embedding sos types.new known.new }
{
    let whole: &[Class] = &types[..];
    let before = context(sos, (known.index, known.context), whole, pair.0);
    known.index = pair.0;
    known.context = before;
    known.clears = resolve_in(types, was_nsm, embedding, before, known.clears, pair);
}

/// Resolves the bracket pairs of a sequence in place, pair by pair (N0). `types` are the types after W7; W3 leaves no AL,
/// and an AL passed in counts as neither direction. `was_nsm` tells which characters were NSM before W1, and `sos` is the
/// type before the sequence, whose level is `level`. `closers` has at each opener's index the index of its closer.
#[tactic(auto, using(crate::proofs::brackets_lemmas::Context::first_known))]
pub fn resolve_closers(
    types: &mut [Class],
    was_nsm: &[bool],
    closers: &[u32],
    level: u8,
    sos: Class,
)
    requires within { All (λ c. c < length types.old) closers.now }
    requires as_long { length was_nsm.now ≡ length types.old }
    ensures { types.new ≡ resolve_pairs (direction level) sos was_nsm.now (pairs_in 0 closers.now) types.old }
{
    let embedding = direction(level);
    let mut known = known_first(sos);
    for i in 0..closers.len() {
        let close = closers[i] as usize;
        if i < close {
            resolve_next(types, was_nsm, embedding, sos, &mut known, (i, close));
        }
    }
}
