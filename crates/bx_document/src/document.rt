//! The document that the editor edits: how it is opened, what it tells of itself, and its base direction and width.
ghost use Rattle.std.specs.Borrow.{Bor};
ghost use Rattle.std.specs.Iterator.{Drains};
ghost use Rattle.bx_text.specs.Slices.{joined, lends};
ghost use Rattle.std.specs.Prelude.{◌≡◌, ℕ, ◌+◌, ◌≤◌, ◌<◌, ◌↔◌, List, true, IfOk, IsErrOf, IsUtf8, OnOk, length, string_bytes};
ghost use Rattle.bx_common.specs.Characters.{is_side};
ghost use Rattle.bx_text.specs.Edits.{largest_text};
ghost use Rattle.bx_view.specs.Numbers.{paragraph_number};
ghost use Rattle.bx_document.specs.Document.{at_opening};

use crate::error::DocumentError;
use crate::indexed_text::IndexedText;
use crate::row_cache::RowCache;
use bx_common::Base;
use bx_text::Slices;
use bx_ucd::BidiData;
use bx_view::View;
use std::alloc::Global;
use std::marker::Model;

/// An editable text with its undo history, its paragraph index and its view for a window's width and a base direction.
#[derive(Drop)]
pub struct Document<D: BidiData + Drop> {
    /// The text with its history, its index and the tables.
    pub(crate) indexed: IndexedText<D>,
    /// The base direction, the width, and cached paragraphs laid out in them.
    pub(crate) view: View,
    /// Rows that were drawn, by which a row that is shown again is copied.
    pub(crate) row_cache: RowCache,
    /// The allocator of copies, of the view and of the cache.
    pub(crate) alloc: Global,
}

impl<D: BidiData + Drop> Model for Document<D> {
    ghost use Rattle.bx_view.specs.Caching.{IsViewBy};
    ghost use Rattle.bx_document.specs.Cache.{AreDrawnBy};
    ghost use Rattle.bx_document.specs.Document.{DocumentState};
    ghost use Rattle.bx_document.specs.Past.{KeepsPlaces};

    ghost Value = { DocumentState D };

    ghost view = { λ d. record {
      tables = d.indexed.tables;
      document = record { content = d.indexed.content; base = d.view.base; w = d.view.w };
    } };

    ghost invariant = { λ d. IsViewBy (D.data d.indexed.tables) d.view
        × KeepsPlaces (D.data d.indexed.tables) d.indexed.content
        × AreDrawnBy (D.data d.indexed.tables) d.row_cache };
}

impl<D: BidiData + Drop> Document<D> {
    /// Opens a text with an empty undo history, in a window of `w` columns. An error drops the text and the tables.
    ///
    /// Errors: `TooLong` above 16,777,216 bytes; `OutOfMemory`.
    pub fn open(
        alloc: Global,
        text: String,
        tables: D,
        w: u16,
        base: Base,
    ) -> Result<Document<D>, DocumentError>
        requires side { is_side w ≡ true }
        ensures ok { IfOk result (λ d. d ≡ record { tables = tables; document = at_opening (string_bytes text) w base }) }
        ensures too_long { IsErrOf result DocumentError.TooLong ↔ (largest_text < length (string_bytes text)) }
    {
        let indexed = IndexedText::open(alloc, text, tables)?;
        let view = View::of(alloc, w, base);
        Ok(Document {
            indexed,
            view,
            row_cache: RowCache::new(alloc),
            alloc,
        })
    }

    /// The text's length in bytes. Allocates nothing.
    pub fn len(&self) -> usize
        ensures len { result ≡ length self.now.document.content.text }
        ensures short { length self.now.document.content.text ≤ largest_text }
        ensures utf8 { IsUtf8 self.now.document.content.text }
    {
        self.indexed.len()
    }

    /// The text in consecutive pieces. Allocates nothing.
    pub fn pieces(&self) -> Slices<'_>
        ensures text { result ≡ self.now.document.content.text }
        ensures joined { (slices : List (Bor (List ℕ))) → Drains lends result slices → joined slices ≡ self.now.document.content.text }
    {
        self.indexed.pieces()
    }

    /// The tables. Allocates nothing.
    pub fn tables(&self) -> &D
        ensures { result.now ≡ self.now.tables }
    {
        self.indexed.tables()
    }

    /// The number, from 1, of the paragraph in which an offset in bytes lies. Allocates nothing.
    pub fn paragraph_at(&self, offset: usize) -> usize
        ensures { result ≡ paragraph_number (D.data self.now.tables) self.now.document.content.text offset + 1 }
    {
        let text_ref = self.indexed.text_ref();
        text_ref.index.span_at(offset).number + 1
    }

    /// The base direction of the paragraphs. Allocates nothing.
    pub fn base(&self) -> Base
        ensures { result ≡ self.now.document.base }
    {
        self.view.base()
    }

    /// The window's columns. Allocates nothing.
    pub fn width(&self) -> u16
        ensures width { result ≡ self.now.document.w }
        ensures side { is_side self.now.document.w ≡ true }
    {
        self.view.width()
    }

    /// Sets the base direction, and discards the view: paragraphs are resolved again when they are needed. Allocates nothing.
    pub fn set_base(&mut self, base: Base)
        ensures { self.new ≡ record self.old { document = record self.old.document { base = base } } }
    {
        self.view = View::of(self.alloc, self.view.width(), base);
    }

    /// Sets the width. Cached paragraphs keep their levels and are rewrapped when they are needed. Allocates nothing.
    pub fn set_width(&mut self, w: u16)
        requires side { is_side w ≡ true }
        ensures { self.new ≡ record self.old { document = record self.old.document { w = w } } }
    {
        self.view.set_width(w);
    }
}
