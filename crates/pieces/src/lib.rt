// Pieces of a template: tokens and gaps, and why a reading fails.

#![tactic(auto)]

mod fault;
mod kind;
mod piece;

pub use fault::{FaultKind, ReadFault};
pub use kind::{Kind, Operator};
pub use piece::{Piece, TextRange};
