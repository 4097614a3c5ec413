//! A range of offsets or of indexes.

/// A range of bytes, or of indexes, from `start` up to `stop`, which is not in it.
#[derive(Clone, Copy)]
pub struct Range {
    pub start: usize,
    pub stop: usize,
}
