//! The layout of one paragraph: what the view caches, to draw its rows and to move in them.
ghost use Rattle.std.specs.Prelude.{◌≡◌, ◌≤◌, ◌<◌, ◌^◌, true, IfOk, OnErr, OnOk, count_by, length, nat_le, map, slice_index_or, string_bytes};
ghost use Rattle.std.specs.List.Sorted.{IsNonDecreasingBy};
ghost use Rattle.bx_common.specs.Characters.{is_side};
ghost use Rattle.bx_paragraph.specs.BodyRows.{first_of, row_at};
ghost use Rattle.bx_paragraph.specs.Layout.{IsLayoutBy, IsSound, OfRows, row_of};
ghost use Rattle.bx_paragraph.specs.Lent.{IsLent};

use bx_common::{Base, OutOfMemory};
use bx_levels::{Levels, levels};
use bx_rows::{Lines, RowStart, row_starts};
use bx_ucd::BidiData;
use std::alloc::Global;
use std::marker::Model;

/// A paragraph's body laid out for a window's width: its levels and its row starts. It is resolved once; the units of a
/// row are computed when the row is needed.
#[derive(Drop)]
pub struct ParagraphLayout {
    pub(crate) body: String,
    /// The base direction that the levels are resolved under.
    pub(crate) base: Base,
    /// The window's columns.
    pub(crate) w: u16,
    /// The paragraph level and the level of each character of the body, before L1.
    pub(crate) levels: Levels,
    /// The start of each row, at least one.
    pub(crate) starts: Vec<RowStart>,
    /// Whether the body is known to have no formatting character and none of class BN; only an edit finds out.
    pub(crate) is_unformatted: bool,
    /// The list that the next edit writes its row starts into.
    pub(crate) spare: Vec<RowStart>,
}

impl Model for ParagraphLayout {
    ghost use Rattle.std.specs.Prelude.{◌≡◌, ◌<◌, true, length, string_bytes};
    ghost use Rattle.bx_common.specs.Characters.{is_side};
    ghost use Rattle.bx_paragraph.specs.Layout.{LayoutState};

    ghost Value = { LayoutState };

    ghost view = { λ l. record {
      body = string_bytes l.body;
      base = l.base;
      w = l.w;
      paragraph = l.levels.paragraph;
      each = l.levels.each.items;
      starts = l.starts.items;
      is_unformatted = l.is_unformatted;
    } };

    ghost invariant = { λ l. (is_side l.w ≡ true) × (0 < length l.starts.items) };
}

impl ParagraphLayout {
    /// Lays out a body in a window of `w` columns, under a base direction.
    #[tactic(auto, using(crate::proofs::Starts::some_start))]
    pub fn of<D: BidiData>(
        alloc: Global,
        body: String,
        tables: &D,
        w: u16,
        base: Base,
    ) -> Result<ParagraphLayout, OutOfMemory>
        requires { is_side w ≡ true }
        ensures body { IfOk result (λ l. l.body ≡ string_bytes body) }
        ensures base { IfOk result (λ l. l.base ≡ base) }
        ensures w { IfOk result (λ l. l.w ≡ w) }
        ensures rows { IfOk result (λ l. IsLayoutBy (D.data tables.now) l) }
    {
        let levels = levels(alloc, body.as_str(), tables, base)?;
        let starts = row_starts(alloc, body.as_str(), tables, w)?;
        Ok(ParagraphLayout {
            body,
            base,
            w,
            levels,
            starts,
            is_unformatted: false,
            spare: Vec::new(alloc),
        })
    }

    /// The paragraph's body.
    pub fn body(&self) -> &str
        ensures { result.now ≡ self.now.body }
    {
        self.body.as_str()
    }

    /// The base direction.
    pub fn base(&self) -> Base
        ensures { result ≡ self.now.base }
    {
        self.base
    }

    /// The window's columns.
    pub fn width(&self) -> u16
        ensures width { result ≡ self.now.w }
        ensures side { is_side result ≡ true }
    {
        self.w
    }

    /// Rewraps the paragraph to `w` columns. Its levels are kept.
    ///
    /// Errors: `OutOfMemory`, and nothing has changed.
    #[tactic(auto, using(crate::proofs::Starts::some_start))]
    pub fn set_width<D: BidiData>(&mut self, tables: &D, w: u16) -> Result<(), OutOfMemory>
        requires side { is_side w ≡ true }
        requires data { IsLayoutBy (D.data tables.now) self.old }
        ensures body { self.new.body ≡ self.old.body }
        ensures base { self.new.base ≡ self.old.base }
        ensures w { OnOk result (self.new.w ≡ w) }
        ensures rows { IsLayoutBy (D.data tables.now) self.new }
        ensures err { OnErr result (self.new ≡ self.old) }
    {
        let alloc = *self.starts.allocator();
        let starts = row_starts(alloc, self.body.as_str(), tables, w)?;
        self.w = w;
        self.starts = starts;
        Ok(())
    }

    /// The paragraph's level, 0 or 1.
    pub fn level(&self) -> u8
        ensures { result ≡ self.now.paragraph }
    {
        self.levels.paragraph
    }

    /// The number of rows, at least one.
    #[tactic(auto, using(crate::proofs::Starts::row_count))]
    pub fn row_count(&self) -> usize
        ensures starts { result ≡ length self.now.starts }
        ensures some { 0 < result }
        ensures rows { OfRows self.now (λ rows. result ≡ length rows) }
        ensures sound { IsSound self.now }
        ensures short { length self.now.body < 2 ^ 64 }
    {
        self.starts.len()
    }

    /// The number of the row, from 0, that an offset of the body falls in: the last that begins at or before it.
    #[tactic(auto, using(crate::proofs::Starts::row_falls))]
    pub fn row_of(&self, offset: usize) -> usize
        ensures within { result < length self.now.starts }
        ensures row { OfRows self.now (λ rows. result ≡ row_of rows offset) }
        ensures sound { IsSound self.now }
        ensures short { length self.now.body < 2 ^ 64 }
    {
        starts_up_to(&self.starts, offset).saturating_sub(1)
    }

    /// The offset in the body, in bytes, at which row `row`, from 0, begins.
    pub fn first(&self, row: usize) -> usize
        requires { row < length self.now.starts }
        ensures { OfRows self.now (λ rows. result ≡ first_of (row_at rows row)) }
    {
        self.starts[row].offset
    }

    /// The number of the body's units before row `row`, from 0.
    pub fn units_ahead(&self, row: usize) -> usize
        requires { row < length self.now.starts }
        ensures { result ≡ slice_index_or (map (λ s. s.units) self.now.starts) row 0 }
    {
        self.starts[row].units
    }

    /// The allocator of the layout's lists.
    pub(crate) fn allocator(&self) -> Global {
        *self.starts.allocator()
    }

    /// Lends the body with its row starts and levels, to read rows by the tables that they were computed from.
    pub(crate) fn lines<'t, D: BidiData>(&self, tables: &'t D) -> Lines<'_, 't, D>
        requires { IsLayoutBy (D.data tables.now) self.now }
        ensures { IsLent self.now tables.now result }
    {
        Lines {
            body: self.body.as_str(),
            starts: &self.starts,
            levels: &self.levels,
            tables,
            base: self.base,
            w: self.w,
        }
    }
}

/// The number of row starts at or before an offset, in bytes of the body.
pub(crate) fn starts_up_to(starts: &[RowStart], offset: usize) -> usize
    ensures within { result ≤ length starts.now }
    ensures count { IsNonDecreasingBy (λ s. s.offset) starts.now → result ≡ count_by (λ o. nat_le o offset) (map (λ s. s.offset) starts.now) }
{
    starts.partition_point(|s| s.offset <= offset)
}
