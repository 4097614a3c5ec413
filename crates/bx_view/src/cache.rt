//! The paragraphs that a view caches.
ghost use Rattle.std.specs.Prelude.{◌≡◌, ◌≤◌, ◌<◌, ◌+◌, ◌⊎◌, ◌↔◌, ℕ, List, [], true, IfOk, IfSome, IsTrue, MatchOption, OnOk, length, slice_range};
ghost use Rattle.std.specs.List.{splice};
ghost use Rattle.bx_common.specs.Characters.{is_side};
ghost use Rattle.bx_text.specs.Changes.{IsRange};
ghost use Rattle.bx_view.specs.Caching.{AreCached, FitsLimit, HasBody, Caches, IsCached, cached_bytes, most_cached};

use bx_common::{Base, OutOfMemory};
use bx_paragraph::ParagraphLayout;
use bx_text::{Text, TextSpan};
use bx_ucd::BidiData;
use std::alloc::{AllocError, Global};
use std::marker::Model;
use std::ops::Range;

// A choice: more than the rows of any window (500), each of which may be a paragraph.
const MOST_CACHED: usize = 512;

// The least limit for all cached bodies, in bytes, a choice: typing into a small text seldom evicts paragraphs that are shown.
const LEAST_LIMIT: usize = 65_536;

/// Whether there is a cached paragraph at index `i` and its body is the text's in a span.
fn is_cached(cache: &[ParagraphLayout], i: usize, text: &Text, span: TextSpan) -> bool
    requires order { span.start ≤ span.stop }
    requires within { span.stop ≤ length text.now.edited.text }
    ensures { IsTrue result → HasBody (slice_range text.now.edited.text span.start span.stop) cache.now i }
{
    if i >= cache.len() {
        return false;
    }
    let body = cache[i].body();
    body.len() == span.stop - span.start && text.has_at(span.start, body.as_bytes())
}

/// The index of the cached paragraph whose body is the text's in a span, which is kept in `recent`. Searches outward from the old
/// `recent`, since neighbours on a page are cached close to one another, in either order.
pub(crate) fn find_in(
    cache: &[ParagraphLayout],
    recent: &mut usize,
    text: &Text,
    span: TextSpan,
) -> Option<usize>
    requires order { span.start ≤ span.stop }
    requires within { span.stop ≤ length text.now.edited.text }
    ensures { IfSome result (HasBody (slice_range text.now.edited.text span.start span.stop) cache.now) }
{
    let middle = cache.len().saturating_sub(1).min(*recent);
    for away in 0..cache.len() {
        for i in [middle.saturating_add(away), middle.saturating_sub(away)] {
            if is_cached(cache, i, text, span) {
                *recent = i;
                return Some(i);
            }
        }
    }
    None
}

/// The bytes that the cached bodies leave of `limit`; None where they exceed it.
#[tactic(auto, using(crate::proofs::CachedBytes::bytes_more, crate::proofs::CachedBytes::bytes_within))]
fn bytes_left(cache: &[ParagraphLayout], limit: usize) -> Option<usize>
    ensures { MatchOption result (limit < cached_bytes cache.now) (λ left. cached_bytes cache.now + left ≡ limit) }
{
    let mut left = limit;
    for layout in cache {
        left = left.checked_sub(layout.body().len())?;
    }
    Some(left)
}

/// Whether `bytes` more fit within `limit` beside the cached bodies.
fn has_room(cache: &[ParagraphLayout], bytes: usize, limit: usize) -> bool
    ensures { IsTrue result ↔ (cached_bytes cache.now + bytes ≤ limit) }
{
    match bytes_left(cache, limit) {
        Some(left) => bytes <= left,
        None => false,
    }
}

/// The most bytes that all cached bodies may have, for a text of `text` bytes: the text once, and as much again for edited
/// paragraphs.
pub(crate) fn cache_limit(text: usize) -> usize {
    text.saturating_mul(2).max(LEAST_LIMIT)
}

/// Evicts the oldest paragraph if `MOST_CACHED` are cached.
fn drop_oldest<D: BidiData>(cache: &mut Vec<ParagraphLayout>, tables: &D, base: Base)
    requires { AreCached (D.data tables.now) base cache.old.items }
    ensures cache { AreCached (D.data tables.now) base cache.new.items }
    ensures room { length cache.new.items < most_cached }
    ensures bytes { cached_bytes cache.new.items ≤ cached_bytes cache.old.items }
{
    // Only the contract names the tables and the base direction.
    let _ = tables;
    let _ = base;
    if cache.len() >= MOST_CACHED {
        cache.remove(0);
    }
}

/// Makes room for a paragraph of `bytes` bytes. Evicts the oldest if `MOST_CACHED` are cached, and all if the bodies would
/// exceed `limit` bytes.
fn make_room<D: BidiData>(
    cache: &mut Vec<ParagraphLayout>,
    bytes: usize,
    limit: usize,
    tables: &D,
    base: Base,
)
    requires { AreCached (D.data tables.now) base cache.old.items }
    ensures cache { AreCached (D.data tables.now) base cache.new.items }
    ensures room { length cache.new.items < most_cached }
    ensures bytes { (cache.new.items ≡ []) ⊎ (cached_bytes cache.new.items + bytes ≤ limit) }
{
    if has_room(cache, bytes, limit) {
        drop_oldest(cache, tables, base);
    } else {
        cache.clear();
    }
}

/// Adds a paragraph and returns its index. Evicts the oldest if `MOST_CACHED` are cached, and all others if the bodies would
/// exceed `limit` bytes.
#[tactic(auto, using(crate::proofs::CachedBytes::fits_pushed))]
pub(crate) fn add<D: BidiData>(
    cache: &mut Vec<ParagraphLayout>,
    new: ParagraphLayout,
    tables: &D,
    base: Base,
    limit: usize,
) -> Result<usize, AllocError>
    requires cache { AreCached (D.data tables.now) base cache.old.items }
    requires new { IsCached (D.data tables.now) base new }
    ensures cache { AreCached (D.data tables.now) base cache.new.items }
    ensures new { IfOk result (Caches new.body new.w cache.new.items) }
    ensures bytes { OnOk result (FitsLimit limit cache.new.items) }
{
    make_room(cache, new.body().len(), limit, tables, base);
    cache.push(new)?;
    Ok(cache.len() - 1)
}

/// Rewraps the cached paragraph at index `i` to `w` columns if it has another width. Its levels are kept.
///
/// Errors: `OutOfMemory`, and nothing has changed.
pub(crate) fn lay_out_in<D: BidiData>(
    cache: &mut Vec<ParagraphLayout>,
    i: usize,
    tables: &D,
    base: Base,
    w: u16,
) -> Result<(), OutOfMemory>
    requires cache { AreCached (D.data tables.now) base cache.old.items }
    requires within { i < length cache.old.items }
    requires side { is_side w ≡ true }
    ensures cache { AreCached (D.data tables.now) base cache.new.items }
    ensures body { OnOk result ((body : List ℕ) → HasBody body cache.old.items i → Caches body w cache.new.items i) }
{
    // Only the contract names the base direction.
    let _ = base;
    if cache[i].width() != w {
        cache[i].set_width(tables, w)?;
    }
    Ok(())
}

/// Applies an edit, which replaces a range of the body's bytes with `new`, to the cached paragraph at index `i`, and returns
/// whether it did. A range that cuts a character changes nothing.
///
/// Errors: `OutOfMemory`, and nothing has changed.
pub(crate) fn edit_in<D: BidiData>(
    cache: &mut Vec<ParagraphLayout>,
    i: usize,
    range: Range<usize>,
    new: &str,
    tables: &D,
    base: Base,
) -> Result<bool, OutOfMemory>
    requires cache { AreCached (D.data tables.now) base cache.old.items }
    requires within { i < length cache.old.items }
    requires order { range.start ≤ range.end }
    ensures cache { AreCached (D.data tables.now) base cache.new.items }
    ensures range { IfOk result (λ did. did ≡ true → (body : List ℕ) → HasBody body cache.old.items i → IsRange body range.start range.end) }
    ensures body { IfOk result (λ did. did ≡ true → (body : List ℕ) → (w : ℕ) → Caches body w cache.old.items i
        → Caches (splice body range.start range.end new.now) w cache.new.items i) }
{
    // Only the contract names the base direction.
    let _ = base;
    let body = cache[i].body();
    if !body.is_char_boundary(range.start) || !body.is_char_boundary(range.end) {
        return Ok(false);
    }
    cache[i].edit(range.start, range.end, new, tables)?;
    Ok(true)
}
