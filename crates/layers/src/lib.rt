// Layers: streams over any stream of pieces below them, each proved once for all of these.

#![tactic(auto)]

mod base;
mod fault;
mod parts;
mod piece;
mod shift;
mod tokens;

pub use base::Base;
pub use parts::{Gap, Placed};
pub use shift::Shift;
pub use tokens::Tokens;
