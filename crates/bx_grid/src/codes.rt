//! Codes: a number for each column, so that rows compare as arrays of numbers. `specs/Codes.antt` says what their bits are.

ghost use Rattle.std.specs.Prelude.{◌≡◌, ◌≤◌, ◌-◌, ◌<◌, ◌^◌, [], ◌∷◌, ◌++◌, length, take, drop, replicate, set, true, IfOk};
ghost use Rattle.std.specs.List.{list_all};
ghost use Rattle.bx_grid.specs.Columns.{Glyph, are_equal};
ghost use Rattle.bx_grid.specs.Codes as spec;
ghost use Rattle.bx_grid.specs.Codes.{no_code, blank_code, code_of, is_code, codes_of, are_same_code, columns_in, offset_in};
ghost use Rattle.bx_grid.specs.Seen.{seen, all_seen};

use crate::column::{Column, all_same};
use std::alloc::{AllocError, Global};

/// The common code of columns with no code of their own: the highest bit, which no other code has.
const NO_CODE: u64 = 0x8000_0000_0000_0000;

/// The code of a blank: `code_in(0x120, 1, 0, false)`, where 0x120 is the packed text of U+0020.
const BLANK_CODE: u64 = 9224;

/// The code of a column, by its glyph's packed text and number of columns, its index in the glyph, and the rendition.
fn code_in(number: u64, columns: u16, offset: u16, negative: bool) -> u64
    requires { number < 2 ^ 57 }
    ensures { result ≡ spec.code_in number columns offset negative }
{
    ((number * 4 + u64::from(columns)) * 4 + u64::from(offset)) * 2 + u64::from(negative)
}

/// The code of a column: its own if the glyph has at most seven bytes and three columns.
#[inline(always)]
fn code_of(column: &Column) -> u64
    ensures { result ≡ code_of (seen column.now) }
{
    match column {
        Column::Glyph {
            text,
            columns,
            offset,
            negative,
        } if *columns < 4 && *offset < 4 => match text.packed() {
            Some(number) => code_in(number, *columns, *offset, *negative),
            None => NO_CODE,
        },
        _ => NO_CODE,
    }
}

/// Sets a column and its code.
#[inline(always)]
pub fn set_column(columns: &mut Vec<Column>, codes: &mut Vec<u64>, index: usize, column: Column)
    requires inside { index < length columns.old.items }
    requires also { index < length codes.old.items }
    ensures columns { columns.new.items ≡ set columns.old.items index column }
    ensures codes { codes.new.items ≡ set codes.old.items index (code_of (seen column)) }
{
    codes[index] = code_of(&column);
    columns[index] = column;
}

/// The codes of `count` blanks.
pub fn blank_codes(alloc: Global, count: usize) -> Result<Vec<u64>, AllocError>
    ensures { IfOk result (λ codes. codes.items ≡ replicate count blank_code) }
{
    vec![in alloc; BLANK_CODE; count]
}

/// Sets the codes of the columns from the index `from` up to `to`, without it.
pub fn note_codes(codes: &mut [u64], columns: &[Column], from: usize, to: usize)
    requires as_long { length codes.old ≡ length columns.now }
    requires order { from ≤ to }
    requires inside { to ≤ length columns.now }
    ensures { codes.new ≡ take from codes.old ++ (codes_of (take (to - from) (drop from (all_seen columns.now))) ++ drop to codes.old) }
{
    for index in from..to {
        codes[index] = code_of(&columns[index]);
    }
}

/// The bits in which two lists of codes differ, and those set in any code of the first list.
#[derive(Clone, Copy)]
struct Bits {
    /// Bits that differ between two codes at the same index.
    differing: u64,
    /// Bits that some code of the first list has.
    any: u64,
}

/// Compares two lists of codes. Reads both to the end, which is faster than an early exit.
fn bits_of(codes: &[u64], others: &[u64]) -> Bits
    requires { length codes.now ≡ length others.now }
    ensures same { result.differing ≡ 0 → codes.now ≡ others.now }
    ensures none { codes.now ≡ others.now → result.differing ≡ 0 }
    ensures told { result.any < no_code → list_all is_code codes.now ≡ true }
{
    let mut bits = Bits {
        differing: 0,
        any: 0,
    };
    for (i, code) in codes.iter().enumerate() {
        bits.differing |= *code ^ others[i];
        bits.any |= *code;
    }
    bits
}

/// Whether two lists of columns look the same. Compares the columns only if their codes are equal and some is `NO_CODE`.
pub fn are_same(columns: &[Column], codes: &[u64], others: &[Column], other_codes: &[u64]) -> bool
    requires codes { codes.now ≡ codes_of (all_seen columns.now) }
    requires others { other_codes.now ≡ codes_of (all_seen others.now) }
    ensures { result ≡ are_equal (all_seen columns.now) (all_seen others.now) }
{
    if columns.len() != others.len() {
        return false;
    }
    let bits = bits_of(codes, other_codes);
    if bits.differing != 0 {
        return false;
    }
    bits.any < NO_CODE || all_same(columns, others)
}

/// Whether both codes identify the same column.
pub fn is_same_code(code: u64, other: u64) -> bool
    ensures { result ≡ are_same_code code other }
{
    code == other && code < NO_CODE
}

/// Number of columns of a glyph, from the code of one of its columns.
pub fn columns_in(code: u64) -> u64
    ensures { result ≡ columns_in code }
{
    code / 8 % 4
}

/// Index of a code's column in its glyph, from 0.
pub fn offset_in(code: u64) -> u64
    ensures { result ≡ offset_in code }
{
    code / 2 % 4
}
