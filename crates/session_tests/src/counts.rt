//! An edit asks for the classes of the text that it touches, not of the whole text.

ghost use Rattle.std.specs.Prelude.{◌≡◌, ℕ, List, Some, IsUtf8};
ghost use Rattle.bx_text.specs.index.Paragraphs.{lengths};
ghost use Rattle.bx_text.specs.Changes.{IsChange};

use crate::counting::Counting;
use bx_common::Base;
use bx_document::Document;
use bx_text::{Change, Index, Text};
use bx_ucd::BidiData;
use bx_view::Move;
use std::alloc::{AllocError, Global};
use std::test::Fail;

/// A text that repeats a part 1,000 times.
fn thousand(alloc: Global, part: &str) -> Result<String, AllocError> {
    let mut text = String::new(alloc);
    for _ in 0..1000 {
        text.push_str(part)?;
    }
    Ok(text)
}

/// Inserts a letter at the first place from an offset on, and returns the end of its row.
fn insert<D: BidiData + Drop>(document: &mut Document<D>, offset: usize) -> Result<usize, Fail> {
    let place = document.place_from(offset)?;
    match document.insert(place, "x")? {
        Some(after) => Ok(document.moved(Move::RowEnd, after)?),
        None => Err(Fail::new("no room")),
    }
}

/// Inserts a letter into a text of 1,000 paragraphs of three bytes each. Returns the end of its row, and the number of questions
/// for a class.
fn end_and_questions(alloc: Global, offset: usize) -> Result<(usize, u32), Fail> {
    let text = thousand(alloc, "ab\n")?;
    let mut document = Document::open(alloc, text, Counting::new(alloc)?, 80, Base::Auto)?;
    document.tables().questions();
    let end = insert(&mut document, offset)?;
    Ok((end, document.tables().questions()))
}

/// 1,500 is the start of the 501st paragraph. 100 questions are far fewer than the text's 3,000 characters.
#[test]
fn an_edit_asks_for_few_classes(rt: HostRuntime) -> Result<(), Fail> {
    let (end, questions) = end_and_questions(rt.alloc(), 1500)?;
    assert!(rt;
        end == 1503 && 0 < questions && questions < 100,
        "{questions} questions"
    );
    Ok(())
}

/// Has the index follow an edit for which room was made.
fn follow<D: BidiData>(index: &mut Index, text: &Text, tables: &D, change: &Change)
    requires was { (old : List ℕ)
        × IsUtf8 old
        × (index.old.paragraphs ≡ lengths (D.data tables.now) old)
        × IsChange old change.now text.now.edited.text }
    requires room { index.old.room ≡ Some change.now.added }
    ensures { index.new.paragraphs ≡ lengths (D.data tables.now) text.now.edited.text }
{
    // `len` promises that the text is UTF-8.
    let _utf8 = text.len();
    index.edited(text, tables, change);
}

/// Inserts a separator into a paragraph of 4,000 letters. Returns the number of paragraphs, and that of the questions for a class.
fn paragraphs_and_questions(alloc: Global, offset: usize) -> Result<(usize, u32), Fail> {
    let tables = Counting::new(alloc)?;
    let mut text = Text::open(alloc, thousand(alloc, "abcd")?)?;
    let mut index = Index::build(alloc, &text, &tables)?;
    tables.questions();
    // `len` promises that the text is UTF-8.
    let _utf8 = text.len();
    index.ready(2)?;
    let change = text.insert(offset, "x\n", offset, offset)?;
    follow(&mut index, &text, &tables, &change);
    Ok((index.count(), tables.questions()))
}

#[test]
fn an_index_looks_at_what_an_edit_adds(rt: HostRuntime) -> Result<(), Fail> {
    let (paragraphs, questions) = paragraphs_and_questions(rt.alloc(), 2000)?;
    assert!(rt; paragraphs == 2 && questions < 10, "{questions} questions");
    Ok(())
}
