//! The direction of each FSI's isolate (X5c), all found in one scan from the end.
ghost use Rattle.std.specs.Prelude.{◌≡◌, ℕ, ◌+◌, ◌<◌, List, [], ◌∷◌, IfOk, OnOk, reverse, length, drop, slice_index_or};
ghost use Rattle.bx_levels.specs.embedding.ParagraphLevel.{isolate_level};
ghost use Rattle.std.specs.Prelude.{true};
ghost use Rattle.std.specs.List.{list_any};
ghost use Rattle.bx_ucd.specs.declared.class.Class.TheVariants.{L};
ghost use Rattle.bx_levels.specs.embedding.TextLevels.{levels_before, first_level, is_fsi};

use bx_ucd::Class;
use std::alloc::{AllocError, Global};
use std::marker::Model;

/// The text from the character read last to the end, cut into parts at each PDI that matches no initiator in it. `first` is the
/// paragraph level of the first part, and `later` has the levels of the other parts, the nearest last.
#[derive(Drop)]
struct TextLevels {
    first: u8,
    later: Vec<u8>,
}

// Contracts see the levels in the order of the parts.
impl Model for TextLevels {
    ghost Value = { List ℕ };

    ghost view = { λ s. s.first ∷ reverse s.later.items };
}

impl TextLevels {
    /// The empty text, which is one part of level 0.
    fn new(alloc: Global) -> Self
        ensures { result ≡ 0 ∷ [] }
    {
        TextLevels {
            first: 0,
            later: Vec::new(alloc),
        }
    }

    /// The level of the first part: an initiator just before the text has this part as its isolate's text.
    fn first(&self) -> u8
        ensures { result ≡ first_level self.now }
    {
        self.first
    }

    /// Puts a character in front of the text.
    fn put_before(&mut self, class: Class) -> Result<(), AllocError>
        ensures { OnOk result (self.new ≡ levels_before class self.old) }
    {
        match class {
            Class::PDI => {
                self.later.push(self.first)?;
                self.first = 0;
            }
            Class::LRI | Class::RLI | Class::FSI => self.first = self.later.pop().unwrap_or(0),
            Class::L => self.first = 0,
            Class::R | Class::AL => self.first = 1,
            _ => {}
        }
        Ok(())
    }
}

/// Whether any isolate takes its direction from its text.
fn has_fsi(classes: &[Class]) -> bool
    ensures { result ≡ list_any is_fsi classes.now }
{
    classes.iter().any(|class| matches!(*class, Class::FSI))
}

/// At the index of each FSI, the paragraph level of its isolate's text; other indexes are not used.
pub fn isolate_levels(alloc: Global, classes: &[Class]) -> Result<Vec<u8>, AllocError>
    ensures as_long { IfOk result (λ v. length v.items ≡ length classes.now) }
    ensures levels { IfOk result (λ v. (i : ℕ) → i < length classes.now → is_fsi (slice_index_or classes.now i L) ≡ true
        → slice_index_or v.items i 0 ≡ isolate_level (drop (i + 1) classes.now)) }
{
    let mut levels = vec![in alloc; 0; classes.len()]?;
    if !has_fsi(classes) {
        return Ok(levels);
    }
    let mut texts = TextLevels::new(alloc);
    let mut i = classes.len();
    while i > 0 {
        i -= 1;
        levels[i] = texts.first();
        texts.put_before(classes[i])?;
    }
    Ok(levels)
}
