// Finders: of the default openings, and of the openings of any settings.

#![tactic(auto)]

mod defaults;
mod matcher;
mod pattern;
mod patterns;
mod spot;

pub use defaults::{DefaultFinder, find_start_marker_memchr};
pub use matcher::StartMarkerMatcher;
