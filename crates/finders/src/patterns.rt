// Patterns in order.
ghost use Rattle.std.specs.Prelude.{◌≡◌, ◌+◌, ◌<◌, ◌≤◌, true, false, [], map, length};
ghost use Rattle.finder.specs.Finding.{longest};
ghost use Rattle.syntax.specs.Building.{is_empty};
ghost use Rattle.syntax.specs.Delims.{bytes_of};
ghost use Rattle.syntax.specs.Openings.{openings_of};
ghost use Rattle.finders.specs.Defaults.{opened};
ghost use Rattle.finders.specs.Order.{entered, ordered, Falling, Place};
ghost use Rattle.finders.specs.Patterns.{opening_of, openings_of_first, lead_of};

use super::pattern::Pattern;
use super::spot::Spot;
use finder::StartMarker;
use syntax::{Delimiter, DelimiterName, Settings};

// At most five patterns, the longest first.
// The array has a count beside it, which `enter` alone moves: matchers are `Copy` and use no heap, and the library's `ArrayVec` is not `Copy`.
#[derive(Clone, Copy, Debug)]
pub(crate) struct Patterns {
    pub(crate) list: [Pattern; 5],
    pub(crate) count: usize,
    ghost whole: { length list ≡ 5 },
    ghost room: { count ≤ 5 },
    ghost falling: { Falling (openings_of_first count list) },
}

impl Patterns {
    ghost use Rattle.finders.specs.Meant.{openings_in};
    ghost use Rattle.finders.specs.Spots.{behind, ahead, Stays};

    // No patterns. What lies in the free places is `filler`.
    fn none(filler: Pattern) -> Patterns
        ensures value { openings_in result ≡ [] }
        ensures count { result.count ≡ 0 }
    {
        Patterns {
            list: [filler; 5],
            count: 0,
        }
    }

    // The patterns.
    fn as_slice(&self) -> &[Pattern]
        ensures value { map opening_of result.now ≡ openings_in self.now }
        ensures len { length result.now ≡ self.now.count }
    {
        &self.list[..self.count]
    }

    // The place behind the patterns that have at least `len` bytes.
    fn place(&self, len: usize) -> usize
        ensures within { result ≤ self.now.count }
        ensures place { Place (openings_in self.now) len result }
    {
        self.as_slice()
            .partition_point(|pattern| len <= pattern.bytes().len())
    }

    // Puts a pattern at its place, behind those that are as long or longer.
    fn enter(&mut self, pattern: Pattern)
        requires { self.old.count < 5 }
        ensures value { openings_in self.new ≡ entered (opening_of pattern) (openings_in self.old) }
        ensures count { self.new.count ≡ self.old.count + 1 }
    {
        let place = self.place(pattern.bytes().len());
        self.list.copy_within(place..self.count, place + 1);
        self.list[place] = pattern;
        self.count += 1;
    }

    // Enters an opening, unless it is empty.
    fn enter_opening(&mut self, marker: StartMarker, delimiter: &Delimiter)
        requires { self.old.count < 5 }
        ensures value { openings_in self.new ≡ elim (is_empty (bytes_of delimiter.now)) [ true ↦ openings_in self.old | false ↦ entered (record { marker = marker; bytes = bytes_of delimiter.now }) (openings_in self.old) ] }
        ensures count { self.new.count ≤ self.old.count + 1 }
    {
        if !delimiter.as_bytes().is_empty() {
            self.enter(Pattern {
                marker,
                delimiter: *delimiter,
            });
        }
    }

    // The patterns of settings: each opening that is not empty, entered in the order of openings.
    pub(crate) fn of(settings: &Settings) -> Patterns
        ensures { openings_in result ≡ ordered (openings_of settings.now) }
    {
        let mut patterns = Patterns::none(Pattern {
            marker: StartMarker::Variable,
            delimiter: *settings.entry(DelimiterName::VariableStart),
        });
        for marker in StartMarker::ALL {
            patterns.enter_opening(marker, settings.entry(DelimiterName::from(marker)));
        }
        patterns
    }

    // The first bytes of the patterns, and of what lies in the free places.
    pub(crate) fn leads(&self) -> [u8; 5]
        ensures { result ≡ map lead_of self.now.list }
    {
        self.list.map(|pattern| pattern.bytes()[0])
    }

    // The first pattern that qualifies at the spot, which is the longest: what it opens, and its length.
    pub(crate) fn opening_at(&self, spot: &mut Spot) -> Option<(StartMarker, usize)>
        ensures value { opened (longest (openings_in self.now) (behind spot.old) (ahead spot.old)) ≡ result }
        ensures stays { Stays spot.old spot.new }
    {
        for pattern in self.as_slice() {
            if pattern.qualifies(spot) {
                return Some((pattern.marker, pattern.bytes().len()));
            }
        }
        None
    }
}
