//! Pieces and tokens of a text.

mod piece;
mod token;

pub use piece::{Piece, PieceKind};
pub use token::{Punct, Tok, Token};
