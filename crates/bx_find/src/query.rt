//! The letters of a query, with the borders that a search uses.
ghost use Rattle.std.specs.Prelude.{◌≡◌, ◌+◌, ◌*◌, ◌≤◌, ◌<◌, ◌↔◌, ◌++◌, [], get_or, length, chars, IfSome, IsSome, IsNone};
ghost use Rattle.bx_find.specs.Borders.{IsBorder, AreBorders};
ghost use Rattle.bx_find.specs.Letters.{letters};

use crate::borders::border;
use crate::letters::{Reading, letters_of};
use crate::ring::Ring;
use arrayvec::ArrayVec;
use bx_common::first_char;
use bx_ucd::BidiData;
use std::marker::Model;

/// The greatest number of letters: `MOST_LETTERS`, four, for each of the 64 characters that a query's text may have, a limit that
/// `bx_editor` chose (`longest_query`).
const ROOM: usize = 256;

/// One border for each beginning of the letters, the empty one too.
const BORDER_ROOM: usize = 257;

/// The letters of a query, one at least.
#[derive(Drop)]
pub struct Query {
    letters: ArrayVec<char, ROOM>,
    /// The number of letters in the border of the query's first k letters, at the index k from 0.
    borders: ArrayVec<usize, BORDER_ROOM>,
}

// Contracts see the letters.
impl Model for Query {
    ghost use Rattle.std.specs.Prelude.{ℕ, ◌<◌, ◌≤◌, List, length};
    ghost use Rattle.bx_find.specs.Borders.{IsQuery};

    ghost Value = { List ℕ };

    ghost view = { λ q. q.letters.items };

    ghost invariant = { λ q. IsQuery q.letters.items q.borders.items };
}

/// Appends the letters of a character.
fn push_letters(letters: &mut ArrayVec<char, ROOM>, more: &[char])
    requires { length letters.old.items + length more.now ≤ 256 }
    ensures { letters.new.items ≡ letters.old.items ++ more.now }
{
    for letter in more {
        letters.push(*letter);
    }
}

/// The letters of a text of at most 64 characters.
fn letters_in<D: BidiData>(tables: &D, reading: Reading, text: &str) -> ArrayVec<char, ROOM>
    requires { length (chars text.now) ≤ 64 }
    ensures { result.items ≡ letters (D.data tables.now) reading (chars text.now) }
{
    let mut letters = ArrayVec::new();
    let mut rest = text;
    while let Some((c, behind)) = first_char(rest) {
        rest = behind;
        push_letters(&mut letters, &letters_of(tables, reading, c));
    }
    letters
}

/// The length of the border of each beginning of some letters, the shortest first. The empty beginning has 0.
fn borders_of(letters: &[char]) -> ArrayVec<usize, BORDER_ROOM>
    requires { length letters.now ≤ 256 }
    ensures count { length result.items ≡ length letters.now + 1 }
    ensures borders { AreBorders letters.now result.items }
{
    let mut borders = ArrayVec::new();
    borders.push(0);
    for end in 1..letters.len() + 1 {
        borders.push(border(letters, end));
    }
    borders
}

impl Query {
    /// The query with a text's letters; none if the text has no letter. The text has at most 64 characters.
    pub fn new<D: BidiData>(tables: &D, reading: Reading, text: &str) -> Option<Query>
        requires { length (chars text.now) ≤ 64 }
        ensures letters { IfSome result (λ q. q ≡ letters (D.data tables.now) reading (chars text.now)) }
        ensures none { IsNone result ↔ (letters (D.data tables.now) reading (chars text.now) ≡ []) }
    {
        let letters = letters_in(tables, reading, text);
        if letters.is_empty() {
            return None;
        }
        let borders = borders_of(&letters);
        Some(Query { letters, borders })
    }

    /// The number of letters.
    #[inline(always)]
    pub fn len(&self) -> usize
        ensures value { result ≡ length self.now }
        ensures some { 0 < result }
        ensures few { result ≤ 256 }
    {
        self.letters.len()
    }

    /// The prefix of no letters, which is shorter than the query.
    pub(crate) fn empty_prefix(&self) -> Ring
        ensures empty { result ≡ [] }
        ensures shorter { length result < length self.now }
    {
        // `len` promises that a query has letters.
        let _some = self.len();
        Ring::new()
    }

    /// The letter at an index, from 0.
    #[inline(always)]
    pub(crate) fn letter(&self, index: usize) -> char
        requires { index < length self.now }
        ensures { result ≡ get_or self.now index 0 }
    {
        self.letters[index]
    }

    /// The number of letters in the longest border of the first `end` letters.
    pub(crate) fn border(&self, end: usize) -> usize
        requires some { 0 < end }
        requires end { end ≤ length self.now }
        ensures { IsBorder self.now end result }
    {
        self.borders[end]
    }
}
