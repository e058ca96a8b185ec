// The reader of templates: every byte comes as a piece, a token or a gap.

#![tactic(auto)]

mod chop;
mod closing;
mod fault;
mod opening;
mod parts;
mod reader;
mod reading;
mod rest;
mod verdicts;

pub use closing::Closed;
pub use fault::OpenFault;
pub use reader::Reader;
