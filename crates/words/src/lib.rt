// The words inside tags: operators, identifiers and strings.

#![tactic(auto)]

mod names;
mod operators;
mod strings;

pub use names::lex_identifier;
pub use operators::{operator, weight};
pub use strings::{eat_string, quote_end};
