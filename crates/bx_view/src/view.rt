//! The view of a text in a width.
ghost use Rattle.std.specs.Prelude.{◌≡◌, ℕ, ◌+◌, ◌-◌, ◌^◌, ◌<◌, ◌≤◌, [], true, IfOk, IfSome};
ghost use Rattle.bx_common.specs.Characters.{is_side};
ghost use Rattle.bx_text.specs.index.Paragraphs.{lengths, paragraph_of};
ghost use Rattle.bx_view.specs.FoundRow.{IsSameAtEnd};
ghost use Rattle.bx_view.specs.Caching.{Caches};
ghost use Rattle.bx_view.specs.TextRef.{IsAlong, IsBefore, IsNext, IsOfText, IsSpan, IsViewBy, Keeps, Stands, StandsOn, body_at, bytes, rows};
ghost use Rattle.bx_view.specs.TextRows.{row_of};

use crate::cache::{add, cache_limit, find_in, lay_out_in};
use crate::in_row::RowAt;
use crate::span::{current_span, paragraph_under};
use crate::text_ref::TextRef;
use bx_common::{Base, OutOfMemory};
use bx_paragraph::ParagraphLayout;
use bx_text::{ParagraphWalk, TextSpan};
use bx_ucd::BidiData;
use std::alloc::Global;
use std::marker::Model;

/// The rows of a text for a window's width and a base direction. It caches some paragraphs, resolved once, and never the
/// rows of the whole text. After a change of width a cached paragraph is rewrapped when it is next needed.
#[derive(Drop)]
pub struct View {
    pub(crate) base: Base,
    // the window's columns
    pub(crate) w: u16,
    // the paragraphs in the order in which they were added, some still in an earlier width
    pub(crate) cache: Vec<ParagraphLayout>,
    // the index of the cached paragraph found last
    pub(crate) recent: usize,
}

impl Model for View {
    ghost use Rattle.std.specs.Prelude.{◌≡◌, true};
    ghost use Rattle.bx_common.specs.Characters.{is_side};
    ghost use Rattle.bx_view.specs.Caching.{ViewState};

    ghost Value = { ViewState };

    ghost view = { λ l. record { base = l.base; w = l.w; cache = l.cache.items } };

    ghost invariant = { λ l. is_side l.w ≡ true };
}

/// The row before one that is not the first of its paragraph.
fn above(at: RowAt) -> RowAt
    requires { 0 < at.row }
    ensures { result ≡ record at { row = at.row - 1 } }
{
    RowAt {
        paragraph: at.paragraph,
        start: at.start,
        row: at.row - 1,
        cached: at.cached,
    }
}

/// The row after one that is not the last of its paragraph.
fn below(at: RowAt) -> RowAt
    requires { at.row + 1 < 2 ^ 64 }
    ensures { result ≡ record at { row = at.row + 1 } }
{
    RowAt {
        paragraph: at.paragraph,
        start: at.start,
        row: at.row + 1,
        cached: at.cached,
    }
}

impl View {
    /// An empty view, for any text that its calls are given. It allocates nothing before the first call.
    pub fn of(alloc: Global, w: u16, base: Base) -> View
        requires { is_side w ≡ true }
        ensures { result ≡ record { base = base; w = w; cache = [] } }
    {
        View {
            base,
            w,
            cache: Vec::new(alloc),
            recent: 0,
        }
    }

    /// The base direction.
    pub fn base(&self) -> Base
        ensures { result ≡ self.now.base }
    {
        self.base
    }

    /// The window's columns.
    pub fn width(&self) -> u16
        ensures width { result ≡ self.now.w }
        ensures side { is_side self.now.w ≡ true }
    {
        self.w
    }

    /// Sets the width. Cached paragraphs keep their levels and are rewrapped when they are next needed.
    pub fn set_width(&mut self, w: u16)
        requires { is_side w ≡ true }
        ensures { self.new ≡ record self.old { w = w } }
    {
        self.w = w;
    }

    /// The index of the cached paragraph whose body is the text's in a span, in the view's width. Lays it out if it is not
    /// cached.
    pub fn find<D: BidiData>(
        &mut self,
        text_ref: &TextRef<'_, D>,
        span: TextSpan,
    ) -> Result<usize, OutOfMemory>
        requires data { IsViewBy text_ref.now self.old }
        requires span { IsSpan text_ref.now span }
        ensures keeps { Keeps text_ref.now self.old self.new }
        ensures body { IfOk result (Caches (body_at text_ref.now span.number) self.new.w self.new.cache) }
    {
        if let Some(i) = find_in(&self.cache, &mut self.recent, text_ref.text, span) {
            lay_out_in(&mut self.cache, i, text_ref.tables, self.base, self.w)?;
            return Ok(i);
        }
        let Ok(body) = text_ref.text.copy_range(span.start, span.stop) else {
            return Err(OutOfMemory);
        };
        let alloc = *self.cache.allocator();
        let layout = ParagraphLayout::of(alloc, body, text_ref.tables, self.w, self.base)?;
        let limit = cache_limit(text_ref.text.len());
        let i = add(&mut self.cache, layout, text_ref.tables, self.base, limit)?;
        self.recent = i;
        Ok(i)
    }

    /// The cached paragraph at index `cached`, which has the body of the text's paragraph `number`, from 0.
    pub fn paragraph<D: BidiData>(
        &self,
        text_ref: &TextRef<'_, D>,
        number: usize,
        cached: usize,
    ) -> &ParagraphLayout
        requires data { IsViewBy text_ref.now self.now }
        requires cached { Caches (body_at text_ref.now number) self.now.w self.now.cache cached }
        ensures { IsOfText text_ref.now self.now number result.now }
    {
        // Only the contract names the text and the paragraph's number.
        let _ = text_ref;
        let _ = number;
        &self.cache[cached]
    }

    /// The row that an offset falls in, in its paragraph, whose body is cached at index `cached`.
    fn row_in<D: BidiData>(
        &self,
        text_ref: &TextRef<'_, D>,
        span: TextSpan,
        cached: usize,
        offset: usize,
    ) -> RowAt
        requires data { IsViewBy text_ref.now self.now }
        requires number { span.number ≡ paragraph_of (lengths (D.data text_ref.now.tables.now) (bytes text_ref.now)) offset }
        requires span { IsSpan text_ref.now span }
        requires order { span.start ≤ offset }
        requires cached { Caches (body_at text_ref.now span.number) self.now.w self.now.cache cached }
        ensures row { StandsOn text_ref.now self.now result (row_of (rows text_ref.now self.now) offset) }
        ensures paragraph { result.paragraph ≡ span.number }
        ensures start { result.start ≡ span.start }
    {
        let paragraph = self.paragraph(text_ref, span.number, cached);
        RowAt {
            paragraph: span.number,
            start: span.start,
            row: paragraph.row_of(offset - span.start),
            cached,
        }
    }

    /// The row that an offset of the text falls in.
    pub fn row_at<D: BidiData>(
        &mut self,
        text_ref: &TextRef<'_, D>,
        offset: usize,
    ) -> Result<RowAt, OutOfMemory>
        requires data { IsViewBy text_ref.now self.old }
        ensures keeps { Keeps text_ref.now self.old self.new }
        ensures row { IfOk result (λ at. StandsOn text_ref.now self.new at (row_of (rows text_ref.now self.new) offset)) }
        ensures paragraph { IfOk result (λ at. at.paragraph ≡ paragraph_of (lengths (D.data text_ref.now.tables.now) (bytes text_ref.now)) offset) }
        ensures order { IfOk result (λ at. at.start ≤ offset) }
    {
        let span = paragraph_under(text_ref, offset);
        let cached = self.find(text_ref, span)?;
        Ok(self.row_in(text_ref, span, cached, offset))
    }

    /// A walk over the text's paragraphs, at the one of a row.
    pub fn walk_from<'a, D: BidiData>(
        &self,
        text_ref: &TextRef<'a, D>,
        at: RowAt,
    ) -> ParagraphWalk<'a>
        requires row { Stands text_ref.now self.now at }
        ensures { IsAlong text_ref.now result at }
    {
        // Only the contract names the view.
        let _ = self;
        text_ref.index.walk_at(at.paragraph, at.start)
    }

    /// The row after `at`, if there is one.
    pub fn next_row<D: BidiData>(
        &mut self,
        text_ref: &TextRef<'_, D>,
        at: RowAt,
    ) -> Result<Option<RowAt>, OutOfMemory>
        requires row { Stands text_ref.now self.old at }
        ensures keeps { Keeps text_ref.now self.old self.new }
        ensures next { (n : ℕ) → StandsOn text_ref.now self.old at n → IfOk result (IsNext text_ref.now self.new n) }
        ensures same { IfOk result (IsSameAtEnd self.old self.new) }
    {
        let rows = self
            .paragraph(text_ref, at.paragraph, at.cached)
            .row_count();
        if at.row + 1 < rows {
            return Ok(Some(below(at)));
        }
        let mut walk = self.walk_from(text_ref, at);
        self.next_row_along(text_ref, &mut walk, at)
    }

    /// Like `next_row`, but advances `walk`, which is at the paragraph of `at`.
    pub fn next_row_along<D: BidiData>(
        &mut self,
        text_ref: &TextRef<'_, D>,
        walk: &mut ParagraphWalk<'_>,
        at: RowAt,
    ) -> Result<Option<RowAt>, OutOfMemory>
        requires row { Stands text_ref.now self.old at }
        requires along { IsAlong text_ref.now walk.old at }
        ensures keeps { Keeps text_ref.now self.old self.new }
        ensures next { (n : ℕ) → StandsOn text_ref.now self.old at n → IfOk result (IsNext text_ref.now self.new n) }
        ensures same { IfOk result (IsSameAtEnd self.old self.new) }
        ensures along { IfOk result (λ o. IfSome o (IsAlong text_ref.now walk.new)) }
    {
        let rows = self
            .paragraph(text_ref, at.paragraph, at.cached)
            .row_count();
        if at.row + 1 < rows {
            return Ok(Some(below(at)));
        }
        if !walk.to_next() {
            return Ok(None);
        }
        let span = current_span(text_ref, walk);
        let cached = self.find(text_ref, span)?;
        Ok(Some(RowAt {
            paragraph: span.number,
            start: span.start,
            row: 0,
            cached,
        }))
    }

    /// The row before `at`, if there is one.
    pub fn row_before<D: BidiData>(
        &mut self,
        text_ref: &TextRef<'_, D>,
        at: RowAt,
    ) -> Result<Option<RowAt>, OutOfMemory>
        requires row { Stands text_ref.now self.old at }
        ensures keeps { Keeps text_ref.now self.old self.new }
        ensures before { (n : ℕ) → StandsOn text_ref.now self.old at n → IfOk result (IsBefore text_ref.now self.new n) }
        ensures same { IfOk result (IsSameAtEnd self.old self.new) }
    {
        if at.row > 0 {
            return Ok(Some(above(at)));
        }
        let mut walk = self.walk_from(text_ref, at);
        self.row_before_along(text_ref, &mut walk, at)
    }

    /// Like `row_before`, for many steps in turn: `walk`, which is at the paragraph of `at`, goes along.
    pub fn row_before_along<D: BidiData>(
        &mut self,
        text_ref: &TextRef<'_, D>,
        walk: &mut ParagraphWalk<'_>,
        at: RowAt,
    ) -> Result<Option<RowAt>, OutOfMemory>
        requires row { Stands text_ref.now self.old at }
        requires along { IsAlong text_ref.now walk.old at }
        ensures keeps { Keeps text_ref.now self.old self.new }
        ensures before { (n : ℕ) → StandsOn text_ref.now self.old at n → IfOk result (IsBefore text_ref.now self.new n) }
        ensures same { IfOk result (IsSameAtEnd self.old self.new) }
        ensures along { IfOk result (λ o. IfSome o (IsAlong text_ref.now walk.new)) }
    {
        if at.row > 0 {
            return Ok(Some(above(at)));
        }
        if !walk.to_previous() {
            return Ok(None);
        }
        let span = current_span(text_ref, walk);
        let cached = self.find(text_ref, span)?;
        let rows = self.paragraph(text_ref, span.number, cached).row_count();
        Ok(Some(RowAt {
            paragraph: span.number,
            start: span.start,
            row: rows - 1,
            cached,
        }))
    }

    /// The row that an offset of the text falls in. In the paragraph of `at`, which is found already, it needs no search.
    pub(crate) fn row_near<D: BidiData>(
        &mut self,
        text_ref: &TextRef<'_, D>,
        at: RowAt,
        offset: usize,
    ) -> Result<RowAt, OutOfMemory>
        requires row { Stands text_ref.now self.old at }
        ensures keeps { Keeps text_ref.now self.old self.new }
        ensures row { IfOk result (λ at. StandsOn text_ref.now self.new at (row_of (rows text_ref.now self.new) offset)) }
        ensures paragraph { IfOk result (λ at. at.paragraph ≡ paragraph_of (lengths (D.data text_ref.now.tables.now) (bytes text_ref.now)) offset) }
        ensures order { IfOk result (λ at. at.start ≤ offset) }
    {
        let span = paragraph_under(text_ref, offset);
        if span.number == at.paragraph {
            return Ok(self.row_in(text_ref, span, at.cached, offset));
        }
        let cached = self.find(text_ref, span)?;
        Ok(self.row_in(text_ref, span, cached, offset))
    }
}
