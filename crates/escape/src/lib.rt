// String texts: their characters as a stream, and the decoder of their escapes as another.

#![tactic(auto)]

mod chars;
mod fault;
mod source;
mod unescaper;

pub use chars::CharIndices;
pub use fault::{BadEscape, DecodeFault};
pub use unescaper::Unescaper;
