// The finder of any settings' openings.
ghost use Rattle.std.specs.Prelude.{◌≡◌, ℕ, List};
ghost use Rattle.std.specs.List.{ContainsAt as Has};
ghost use Rattle.finder.specs.Finding.{Opening, found_from, Finds, Inside};
ghost use Rattle.syntax.specs.declared.name.DelimiterName.{DelimiterName as Name};
ghost use Rattle.syntax.specs.Drafts.{defaults as default_delimiters};
ghost use Rattle.syntax.specs.Openings.{setting_of, openings_of};
ghost use Rattle.finders.specs.Defaults.{default_openings};
ghost use Rattle.finders.specs.Order.{ordered, Falling};

use super::patterns::Patterns;
use super::spot::Spot;
use byte_search::memchr_any;
use finder::{Finder, StartMarker};
use syntax::Settings;

// The patterns of settings.
#[derive(Clone, Copy, Debug)]
pub struct StartMarkerMatcher {
    pub(crate) patterns: Patterns,
}

impl StartMarkerMatcher {
    ghost use Rattle.finders.specs.Meant.{meant};

    // The matcher of settings: it means their openings, the longest first, and those of one length in the order of openings.
    pub fn new(settings: &Settings) -> StartMarkerMatcher
        ensures value { meant result ≡ ordered (openings_of settings.now) }
        ensures holds { (o : Opening) → Has (openings_of settings.now) o → Has (meant result) o }
        ensures only { (o : Opening) → Has (meant result) o → Has (openings_of settings.now) o }
        ensures falling { Falling (meant result) }
        ensures same { (xs : List ℕ) (i : ℕ) → found_from (meant result) xs i ≡ found_from (openings_of settings.now) xs i }
        ensures defaults { ((n : Name) → setting_of settings.now n ≡ default_delimiters n) → meant result ≡ default_openings }
        ensures agrees { ((n : Name) → setting_of settings.now n ≡ default_delimiters n) → (xs : List ℕ) (i : ℕ) → found_from (meant result) xs i ≡ found_from default_openings xs i }
    {
        StartMarkerMatcher {
            patterns: Patterns::of(settings),
        }
    }

    // The first place from the offset on where a pattern qualifies, and the longest that does there: how far it is, what it opens, and its length.
    // In one call a byte from the offset on is looked at a bounded number of times: for each of five first bytes at most 33 times by memchr_any,
    // whose chunks of 32 bytes begin anew behind a place where a pattern may begin; at most 5 x 16 times as patterns are compared; and once
    // for the line. A byte before the offset is looked at at most once, and only if a line statement's prefix stands somewhere.
    fn first_opening(&self, source: &[u8], offset: usize) -> Option<(usize, StartMarker, usize)>
        ensures value { result ≡ found_from (meant self.now) source.now offset }
        ensures finds { Finds (meant self.now) source.now offset result }
        ensures inside { Inside source.now offset result }
    {
        let leads = self.patterns.leads();
        // A step is as long as what the search passes over, so no `for` steps through the places.
        let mut spot = Spot::new(source, offset);
        while let Some(d) = memchr_any(spot.ahead(), leads) {
            spot.advance(d);
            if let Some((marker, len)) = self.patterns.opening_at(&mut spot) {
                return Some((spot.at - offset, marker, len));
            }
            spot.advance(1);
        }
        None
    }
}

impl Finder for StartMarkerMatcher {
    ghost use Rattle.finders.specs.Meant.{meant};

    ghost openings = { meant };

    // The triple is taken apart here, as a rule of the project has it.
    fn find(&self, source: &[u8], offset: usize) -> Option<(usize, StartMarker, usize)> {
        let (distance, marker, len) = self.first_opening(source, offset)?;
        Some((distance, marker, len))
    }
}
