// Streams by their meaning, and the one look-ahead that goes on any of them.

#![tactic(auto)]

mod look_ahead;
mod stream;

pub use look_ahead::LookAhead;
pub use stream::{Ending, Stream};
