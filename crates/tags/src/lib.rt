// Reading inside tags.

#![tactic(auto)]

mod ends;
mod tag;
mod tokens;

pub use tag::tokenize_block_or_var;
