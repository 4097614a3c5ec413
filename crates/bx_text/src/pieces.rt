//! A sequence of pieces of text in a balanced tree, searched and split by offset.

mod comparing;
mod copying;
mod cutting;
mod joining;
mod piece;
mod pieces;
mod spares;
mod tree;

pub use piece::{Buffer, Piece};
pub use pieces::Pieces;
pub use spares::Spares;
