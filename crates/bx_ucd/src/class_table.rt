//! A two-stage table of classes: each 256 codes have the number of a stored block, which holds their classes.

ghost use Rattle.std.specs.Prelude.{◌≡◌, ℕ, ◌+◌, ◌<◌, ◌≤◌, All, IfOk, [], length, vec_len, slice_index_or};
ghost use Rattle.bx_ucd.specs.Blocks.{class_at};

use crate::blocks::{BLOCK_COUNT, BLOCK_SIZE, Block};
use crate::class::Class;
use std::alloc::{AllocError, Global};

/// The classes of a block of codes.
type Classes = [Class; BLOCK_SIZE];

/// The class of each code point. Equal blocks are stored once.
#[derive(Drop)]
pub struct ClassTable {
    /// For each 256 codes, the index of their block in `stored`. 16 bits suffice: there are 4352 blocks at most (`BLOCK_COUNT`).
    numbers: Vec<u16>,
    /// The different blocks, in the order in which they were first met.
    stored: Vec<Classes>,
    ghost complete: { vec_len numbers ≡ 4352 },
    ghost in_range: { All (λ n. n < vec_len stored) numbers.items },
}

/// The index of the stored block with these classes; appends the block if it is new.
fn number_of(stored: &mut Vec<Classes>, classes: Classes) -> Result<usize, AllocError>
    ensures number { IfOk result (λ n. n < vec_len stored.new) }
    ensures found { IfOk result (λ n. slice_index_or stored.new.items n [] ≡ classes) }
    ensures kept { (k : ℕ) → k < vec_len stored.old → slice_index_or stored.new.items k [] ≡ slice_index_or stored.old.items k [] }
    ensures grown { vec_len stored.old ≤ vec_len stored.new }
    ensures by_one { vec_len stored.new ≤ vec_len stored.old + 1 }
    ensures once { (k : ℕ) → k < vec_len stored.old → slice_index_or stored.old.items k [] ≡ classes → vec_len stored.new ≡ vec_len stored.old }
{
    for (number, block) in stored.iter().enumerate() {
        if *block == classes {
            return Ok(number);
        }
    }
    let number = stored.len();
    stored.push(classes)?;
    Ok(number)
}

impl ClassTable {
    ghost use Rattle.bx_ucd.specs.ClassTable.{class_in_table};

    /// Builds the table from the blocks of all code points.
    pub fn new(alloc: Global, blocks: &[Block]) -> Result<ClassTable, AllocError>
        requires { length blocks.now ≡ 4352 }
        ensures { IfOk result (λ t. (code : ℕ) → code < 0x110000 → class_in_table t code ≡ class_at blocks.now code) }
    {
        let mut numbers = Vec::with_capacity(alloc, BLOCK_COUNT)?;
        let mut stored = Vec::new(alloc);
        for block in blocks {
            let number = number_of(&mut stored, block.each())?;
            numbers.push(number as u16)?;
        }
        Ok(ClassTable { numbers, stored })
    }

    /// The character's class.
    pub fn class(&self, c: char) -> Class
        ensures { result ≡ class_in_table self.now c }
    {
        let code = c as usize;
        let number = self.numbers[code / BLOCK_SIZE] as usize;
        self.stored[number][code % BLOCK_SIZE]
    }
}
