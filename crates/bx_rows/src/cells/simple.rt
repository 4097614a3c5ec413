//! Simple characters: their clusters and columns follow without the rules on breaks (UAX #29).
//!
//! The ranges are chosen by hand, for the scripts that texts here have most, from the tables of Unicode 18.0.0 in `ucd_breaks`,
//! `ucd_derived` and `unicode_width`. No script makes them. `proofs/cells_lemmas/RangeFacts.antt` computes from those tables that each
//! character has the kind of its range, so a range that another version breaks does not pass the check.
ghost use Rattle.std.specs.Prelude.{◌≡◌, ℕ, List, true, false, ◌∷◌, []};
ghost use Rattle.std.specs.List.{list_all};
ghost use Rattle.bx_ucd.specs.Data.{Data};
ghost use Rattle.unicode_width.specs.Width.{str_width};
ghost use Rattle.unicode_segmentation.specs.Grapheme.{is_grapheme_break};
ghost use Rattle.unicode_segmentation.specs.Segments.{cut};
ghost use Rattle.bx_rows.specs.cells.Simple.{begins, is_mark, is_simple, own_columns};
ghost use Rattle.bx_rows.specs.cells.Units.{face_of};
ghost use Rattle.bx_rows.specs.cells.SimpleRanges.{common_ranges, narrow_ranges, wide_ranges, mark_ranges, point_ranges, ideograph_ranges, form_ranges, Tells};
ghost use Rattle.ucd_table.specs.Rows.{in_ranges};
ghost use Rattle.bx_rows.specs.cells.Most.{HasAtMost};
ghost use Rattle.bx_ucd.specs.declared.class.Class.{Class};

/// The kind of a character, for clusters and columns.
#[derive(Clone, Copy, PartialEq, Eq)]
pub enum Simple {
    /// It begins a cluster, which takes this many columns with its marks.
    Begins(u8),
    /// It extends the cluster before it and adds no column.
    Extends,
    /// It may depend on its neighbours.
    Other,
}

/// Printable ASCII, Hebrew letters and the main block of Arabic letters. The tests are nested, so that each character takes few of
/// them.
#[inline(always)]
#[tactic(auto, unfolding(ucd_table::specs::Rows::in_ranges))]
pub(crate) fn is_common(c: char) -> bool
    ensures { result ≡ in_ranges common_ranges c }
{
    if c <= '~' {
        return c >= ' ';
    }
    if c <= '\u{5ea}' {
        return c >= '\u{5d0}';
    }
    matches!(c, '\u{61d}'..='\u{64a}')
}

/// Hebrew points, which are combining marks.
#[inline(always)]
#[tactic(auto, unfolding(ucd_table::specs::Rows::in_ranges))]
fn is_point(c: char) -> bool
    ensures { result ≡ in_ranges point_ranges c }
{
    matches!(c, '\u{591}'..='\u{5bd}' | '\u{5bf}' | '\u{5c1}'..='\u{5c2}' | '\u{5c4}'..='\u{5c5}' | '\u{5c7}')
}

/// Kana letters and ideographs.
#[inline(always)]
#[tactic(auto, unfolding(ucd_table::specs::Rows::in_ranges))]
fn is_ideograph(c: char) -> bool
    ensures { result ≡ in_ranges ideograph_ranges c }
{
    matches!(c, '\u{3041}'..='\u{3096}' | '\u{30a1}'..='\u{30fa}' | '\u{4e00}'..='\u{9fff}')
}

/// Arabic letters in their forms, each a character of its own (presentation forms A and B).
#[tactic(auto, unfolding(ucd_table::specs::Rows::in_ranges))]
fn is_form(c: char) -> bool
    ensures { result ≡ in_ranges form_ranges c }
{
    matches!(c, '\u{fb50}'..='\u{fbb1}' | '\u{fbd3}'..='\u{fbff}' | '\u{fe80}'..='\u{fefc}')
}

/// Further characters of one column.
#[tactic(auto, unfolding(ucd_table::specs::Rows::in_ranges))]
fn is_narrow(c: char) -> bool
    ensures { result ≡ in_ranges narrow_ranges c }
{
    matches!(c, '\u{a1}'..='\u{ac}' | '\u{ae}'..='\u{2ff}' | '\u{370}'..='\u{482}' | '\u{48a}'..='\u{590}'
        | '\u{5be}' | '\u{5c0}' | '\u{5c3}' | '\u{5c6}' | '\u{5eb}'..='\u{5ff}' | '\u{606}'..='\u{60f}'
        | '\u{61b}' | '\u{660}'..='\u{66f}' | '\u{671}'..='\u{6d5}' | '\u{6ee}'..='\u{70e}'
        | '\u{1e00}'..='\u{200a}' | '\u{2010}'..='\u{2027}' | '\u{202f}'..='\u{205f}'
        | '\u{2070}'..='\u{20cf}' | '\u{2100}'..='\u{2319}' | '\u{2500}'..='\u{25fc}')
}

/// Characters of two columns.
#[tactic(auto, unfolding(ucd_table::specs::Rows::in_ranges))]
fn is_wide(c: char) -> bool
    ensures { result ≡ in_ranges wide_ranges c }
{
    matches!(c, '\u{2f00}'..='\u{2fd5}' | '\u{3001}'..='\u{3029}' | '\u{3041}'..='\u{3096}' | '\u{309b}'..='\u{30ff}'
        | '\u{3400}'..='\u{4dbf}' | '\u{4e00}'..='\u{9fff}' | '\u{f900}'..='\u{faff}' | '\u{ff01}'..='\u{ff60}')
}

/// Combining marks.
#[tactic(auto, unfolding(ucd_table::specs::Rows::in_ranges))]
fn is_mark(c: char) -> bool
    ensures { result ≡ in_ranges mark_ranges c }
{
    matches!(c, '\u{300}'..='\u{337}' | '\u{339}'..='\u{36f}' | '\u{483}'..='\u{489}' | '\u{591}'..='\u{5bd}'
        | '\u{5bf}' | '\u{5c1}'..='\u{5c2}' | '\u{5c4}'..='\u{5c5}' | '\u{5c7}' | '\u{610}'..='\u{61a}'
        | '\u{64b}'..='\u{65f}' | '\u{670}' | '\u{6d6}'..='\u{6dc}' | '\u{6df}'..='\u{6e4}')
}

/// The kind of a character up to U+3000 that is not common. The first test rules out U+070F to U+1DFF, which no range covers, so
/// that text in their scripts skips the range tests.
#[tactic(auto, using(crate::proofs::cells_lemmas::RangeFacts::of_narrow, crate::proofs::cells_lemmas::RangeFacts::of_wide, crate::proofs::cells_lemmas::RangeFacts::of_mark))]
fn uncommon_kind(c: char) -> Simple
    ensures { Tells c result }
{
    if c > '\u{70e}' && c < '\u{1e00}' {
        return Simple::Other;
    }
    if is_narrow(c) {
        Simple::Begins(1)
    } else if is_mark(c) {
        Simple::Extends
    } else if is_wide(c) {
        Simple::Begins(2)
    } else {
        Simple::Other
    }
}

/// The kind of a common character (`is_common`); `Other` for all others.
#[inline(always)]
pub fn common_kind(c: char) -> Simple
    ensures { Tells c result }
{
    if is_common(c) {
        Simple::Begins(1)
    } else {
        Simple::Other
    }
}

/// The kind of a character above U+3000, the ideographic space.
#[inline(always)]
fn high_kind(c: char) -> Simple
    ensures { Tells c result }
{
    if is_ideograph(c) {
        Simple::Begins(2)
    } else if is_form(c) {
        Simple::Begins(1)
    } else if is_wide(c) {
        Simple::Begins(2)
    } else {
        Simple::Other
    }
}

/// The kind of a character. The tests begin with the characters of most long texts.
#[inline(always)]
#[tactic(auto, using(crate::proofs::cells_lemmas::RangeFacts::of_point))]
pub fn simple_kind(c: char) -> Simple
    ensures { Tells c result }
{
    if c > '\u{3000}' {
        return high_kind(c);
    }
    if is_common(c) {
        Simple::Begins(1)
    } else if is_point(c) {
        Simple::Extends
    } else {
        uncommon_kind(c)
    }
}

/// The law of breaks: between two simple characters there is a break exactly if the second begins a cluster.
pub fn law_breaks()
    ensures { (last next : ℕ) (before after : List ℕ) → is_simple last ≡ true → is_simple next ≡ true
        → is_grapheme_break true (last ∷ before) (next ∷ after) ≡ begins next }
{}

/// The law of columns: a character that begins a cluster takes the same columns with marks as alone.
pub fn law_columns()
    ensures { (c : ℕ) (ms : List ℕ) → begins c ≡ true → list_all is_mark ms ≡ true → str_width false (c ∷ ms) ≡ own_columns c }
{}

/// The law of faces: a cluster of a character that begins one and any marks is not a tab, and shows at most the character's columns.
pub fn law_faces()
    ensures { (ucd : Data) (w c : ℕ) (ms : List ℕ) → begins c ≡ true → list_all is_mark ms ≡ true
        → HasAtMost (own_columns c) (face_of ucd w (c ∷ ms)) }
{}
