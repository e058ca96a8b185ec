// Recorded pieces: records that are checked and then are a stream, and tokens that borrow from the template.

#![tactic(auto)]

mod fault;
mod range;
mod recorded;
mod token;

pub use fault::RecordFault;
pub use recorded::Recorded;
pub use token::Token;
