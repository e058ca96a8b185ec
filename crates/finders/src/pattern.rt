// A pattern.
ghost use Rattle.std.specs.Prelude.{◌≡◌, ◌<◌, length};
ghost use Rattle.syntax.specs.Delims.{bytes_of};
ghost use Rattle.finder.specs.Finding.{qualifies as qualifying};

use super::spot::Spot;
use byte_search::starts_with_bytes;
use finder::StartMarker;
use syntax::Delimiter;

// An opening, which is not empty.
#[derive(Clone, Copy, Debug)]
pub(crate) struct Pattern {
    pub(crate) marker: StartMarker,
    pub(crate) delimiter: Delimiter,
    ghost filled: { 0 < length (bytes_of delimiter) },
}

impl Pattern {
    ghost use Rattle.finders.specs.Patterns.{opening_of};
    ghost use Rattle.finders.specs.Spots.{behind, ahead, Stays};

    // The bytes of the pattern.
    pub(crate) fn bytes(&self) -> &[u8]
        ensures value { result.now ≡ bytes_of self.now.delimiter }
        ensures filled { 0 < length result.now }
    {
        self.delimiter.as_bytes()
    }

    // Whether the pattern stands at the spot and may stand there: a line statement at the front of its line.
    pub(crate) fn qualifies(&self, spot: &mut Spot) -> bool
        ensures value { result ≡ qualifying (opening_of self.now) (behind spot.old) (ahead spot.old) }
        ensures stays { Stays spot.old spot.new }
    {
        starts_with_bytes(spot.ahead(), self.bytes())
            && (self.marker != StartMarker::LineStatement || spot.is_line_start())
    }
}
