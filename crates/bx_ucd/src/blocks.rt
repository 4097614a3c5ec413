//! The classes of all code points, in blocks of 256, while the table of classes is built: the entries' ranges are painted over them
//! in file order, so that later lines win.

ghost use Rattle.std.specs.Prelude.{◌≡◌, ℕ, ◌*◌, ◌<◌, ◌≤◌, length, slice_index_or, unwrap_or, filter_map, IfOk, vec_len, if◌then◌else◌};
ghost use Rattle.bx_ucd.specs.Codes.{covers};
ghost use Rattle.bx_ucd.specs.Answers.{given, default, class_by_ranges, class_by_lines};
ghost use Rattle.bx_ucd.specs.Blocks.{class_at};

use crate::class::Class;
use crate::class_file::{ClassEntry, ClassRange};
use std::alloc::{AllocError, Global};

/// Code points per block.
pub const BLOCK_SIZE: usize = 256;

/// The number of blocks for the codes 0 to 10FFFF (hexadecimal): 110000 / 256.
pub const BLOCK_COUNT: usize = 4352;

/// The classes of a block: one for all its codes, or one for each.
#[derive(Clone, Copy)]
pub struct Block {
    /// The class of all its codes, if they have one.
    whole: Option<Class>,
    /// Read only where `whole` is `None`.
    each: [Class; BLOCK_SIZE],
}

impl Block {
    ghost use Rattle.bx_ucd.specs.Blocks.{class_in};

    /// A block whose codes all have one class.
    pub fn new(class: Class) -> Block
        ensures { (i : ℕ) → class_in result i ≡ class }
    {
        Block {
            whole: Some(class),
            each: [class; BLOCK_SIZE],
        }
    }

    /// The class of each code.
    pub fn each(&self) -> [Class; BLOCK_SIZE]
        ensures len { length result ≡ 256 }
        ensures each { (i : ℕ) → i < 256 → slice_index_or result i Class.L ≡ class_in self.now i }
    {
        match self.whole {
            Some(class) => [class; BLOCK_SIZE],
            None => self.each,
        }
    }

    /// Sets the class of the codes `low..end`, as indexes into the block.
    fn paint(&mut self, low: usize, end: usize, class: Class)
        requires { end ≤ 256 }
        ensures painted { (i : ℕ) → low ≤ i → i < end → class_in self.new i ≡ class }
        ensures below { (i : ℕ) → i < low → i < 256 → class_in self.new i ≡ class_in self.old i }
        ensures above { (i : ℕ) → end ≤ i → i < 256 → class_in self.new i ≡ class_in self.old i }
    {
        if low == 0 && end == BLOCK_SIZE {
            self.whole = Some(class);
            return;
        }
        self.each = self.each();
        self.whole = None;
        for i in low..end {
            self.each[i] = class;
        }
    }
}

/// Sets the class of the range's codes. A block that the range covers takes one step.
pub fn paint(blocks: &mut [Block], painted: ClassRange)
    ensures len { length blocks.new ≡ length blocks.old }
    ensures painted { (code : ℕ) → code < 256 * length blocks.old
        → class_at blocks.new code ≡ (if covers painted.range code then painted.class else class_at blocks.old code) }
{
    let low = painted.range.low as usize;
    let high = painted.range.high as usize;
    let first = low / BLOCK_SIZE;
    let last = high / BLOCK_SIZE;
    for b in first..blocks.len().min(last + 1) {
        let from = if b == first { low % BLOCK_SIZE } else { 0 };
        let end = if b == last {
            high % BLOCK_SIZE + 1
        } else {
            BLOCK_SIZE
        };
        blocks[b].paint(from, end, painted.class);
    }
}

/// Paints the `@missing` defaults, in file order.
fn paint_defaults(blocks: &mut [Block], entries: &[ClassEntry])
    ensures len { length blocks.new ≡ length blocks.old }
    ensures painted { (code : ℕ) → code < 256 * length blocks.old
        → class_at blocks.new code ≡ unwrap_or (class_by_ranges (filter_map default entries.now) code) (class_at blocks.old code) }
{
    for entry in entries {
        if let ClassEntry::Default(range) = entry {
            paint(blocks, *range);
        }
    }
}

/// Paints the data lines, in file order.
fn paint_given(blocks: &mut [Block], entries: &[ClassEntry])
    ensures len { length blocks.new ≡ length blocks.old }
    ensures painted { (code : ℕ) → code < 256 * length blocks.old
        → class_at blocks.new code ≡ unwrap_or (class_by_ranges (filter_map given entries.now) code) (class_at blocks.old code) }
{
    for entry in entries {
        if let ClassEntry::Given(range) = entry {
            paint(blocks, *range);
        }
    }
}

/// Paints the defaults, then the data lines, so that a data line overrides every default.
fn paint_entries(blocks: &mut [Block], entries: &[ClassEntry])
    requires { (code : ℕ) → code < 256 * length blocks.old → class_at blocks.old code ≡ Class.L }
    ensures len { length blocks.new ≡ length blocks.old }
    ensures painted { (code : ℕ) → code < 256 * length blocks.old → class_at blocks.new code ≡ class_by_lines entries.now code }
{
    paint_defaults(blocks, entries);
    paint_given(blocks, entries);
}

/// The blocks of all code points, painted by the entries; a code that no entry covers has class L.
pub fn painted_blocks(alloc: Global, entries: &[ClassEntry]) -> Result<Vec<Block>, AllocError>
    ensures len { IfOk result (λ v. vec_len v ≡ 4352) }
    ensures classes { IfOk result (λ v. (code : ℕ) → code < 0x110000 → class_at v.items code ≡ class_by_lines entries.now code) }
{
    let mut blocks = vec![in alloc; Block::new(Class::L); BLOCK_COUNT]?;
    paint_entries(&mut blocks, entries);
    Ok(blocks)
}
