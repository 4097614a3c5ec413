//! Characters, types and levels at the indexes of a sequence, for `levels_by_rules`.
ghost use Rattle.std.specs.Prelude.{◌≡◌, ◌<◌, ◌≤◌, IfOk, All, None, length, slice_index_or};
ghost use Rattle.bx_levels.specs.resolve.Levels.{chars_at, type_of, types_at, with_levels};
ghost use Rattle.bx_levels.specs.resolve.Kept.{max_level};

use crate::embedding::ExplicitChar;
use crate::resolve::paragraph::Level;
use bx_ucd::Class;
use std::alloc::{AllocError, Global};

/// The characters at these indexes of the paragraph.
pub fn chars_at(alloc: Global, chars: &[char], indexes: &[usize]) -> Result<Vec<char>, AllocError>
    requires { All (λ p. p < length chars.now) indexes.now }
    ensures { IfOk result (λ v. v.items ≡ chars_at chars.now indexes.now) }
{
    let mut found = Vec::with_capacity(alloc, indexes.len())?;
    for p in indexes {
        found.push(chars[*p])?;
    }
    Ok(found)
}

/// The type of the character at an index, after overrides; ON where X9 removes it.
fn type_at(kept: &[Option<ExplicitChar>], index: usize) -> Class
    requires { index < length kept.now }
    ensures { result ≡ type_of (slice_index_or kept.now index None) }
{
    match kept[index] {
        Some(k) => k.class,
        None => Class::ON,
    }
}

/// The types of the characters at these indexes, after overrides.
pub fn types_at(
    alloc: Global,
    kept: &[Option<ExplicitChar>],
    indexes: &[usize],
) -> Result<Vec<Class>, AllocError>
    requires { All (λ p. p < length kept.now) indexes.now }
    ensures { IfOk result (λ v. v.items ≡ types_at kept.now indexes.now) }
{
    let mut types = Vec::with_capacity(alloc, indexes.len())?;
    for p in indexes {
        types.push(type_at(kept, *p))?;
    }
    Ok(types)
}

/// Writes each level at its index, the first level at the first index; `indexes` and `levels` belong to one sequence.
pub fn write_levels(each: &mut Vec<Level>, indexes: &[usize], levels: &[u8])
    requires inside { All (λ p. p < length each.old.items) indexes.now }
    requires low { All (λ n. n ≤ max_level) levels.now }
    ensures { each.new.items ≡ with_levels indexes.now levels.now each.old.items }
{
    let count = indexes.len().min(levels.len());
    for i in 0..count {
        each[indexes[i]] = Level::of(levels[i]);
    }
}
