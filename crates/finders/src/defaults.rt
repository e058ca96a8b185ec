// The finder of the default openings.
ghost use Rattle.std.specs.Prelude.{◌≡◌, ℕ, List};
ghost use Rattle.finder.specs.Finding.{longest, found_from, Finds, Inside};
ghost use Rattle.finders.specs.Defaults.{default_openings, opened, pair};

use byte_search::after;
use finder::{Finder, StartMarker};
use memchr::memchr_iter;

// The default opening that stands at the front.
fn opening_here(s: &[u8]) -> Option<StartMarker>
    ensures { (b : List ℕ) → opened (longest default_openings b s.now) ≡ pair result }
{
    match s {
        [b'{', b'{', ..] => Some(StartMarker::Variable),
        [b'{', b'%', ..] => Some(StartMarker::Block),
        [b'{', b'#', ..] => Some(StartMarker::Comment),
        _ => None,
    }
}

// The first default opening from the offset on: how far it is, what it opens, and its length. Bytes are skipped to the next `{`.
pub fn find_start_marker_memchr(source: &[u8], offset: usize) -> Option<(usize, StartMarker, usize)>
    ensures value { result ≡ found_from default_openings source.now offset }
    ensures finds { Finds default_openings source.now offset result }
    ensures inside { Inside source.now offset result }
{
    let rest = after(source, offset);
    for distance in memchr_iter(b'{', rest) {
        if let Some(marker) = opening_here(after(rest, distance)) {
            return Some((distance, marker, 2));
        }
    }
    None
}

// Finds the default openings.
#[derive(Clone, Copy, Debug, Default)]
pub struct DefaultFinder;

impl Finder for DefaultFinder {
    ghost openings = { λ _. default_openings };

    // The triple is taken apart here, by name: that form is asked for (docs/DECISIONS.md, "Forms").
    fn find(&self, source: &[u8], offset: usize) -> Option<(usize, StartMarker, usize)> {
        let (distance, marker, len) = find_start_marker_memchr(source, offset)?;
        Some((distance, marker, len))
    }
}
