// The finders that serve a reading.
ghost use Rattle.finders.specs.Defaults.{default_openings};
ghost use Rattle.finders.specs.Meant.{meant};
ghost use Rattle.resume.specs.declared.seeker.Seeker.TheVariants.{Default as defaults, Matcher as matching};

use finder::{Finder, StartMarker};
use finders::{DefaultFinder, StartMarkerMatcher};

// One of the two finders that know the default openings.
#[derive(Clone, Copy)]
pub(crate) enum Seeker<'m> {
    Default,
    Matcher(&'m StartMarkerMatcher),
}

impl<'m> Finder for Seeker<'m> {
    ghost openings = { λ f. elim f [ defaults ↦ default_openings | matching m ↦ meant m.now ] };

    fn find(&self, source: &[u8], offset: usize) -> Option<(usize, StartMarker, usize)> {
        match self {
            Seeker::Default => DefaultFinder.find(source, offset),
            Seeker::Matcher(matcher) => matcher.find(source, offset),
        }
    }
}
