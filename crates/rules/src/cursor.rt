// Places of a source.
ghost use Rattle.std.specs.Prelude.{◌≡◌, ◌≤◌, length, take};

use byte_search::{after, until};
use syntax::Settings;

// A place of a source that is read under settings. It keeps the bytes that were read too, since rules look back: over a line before a strip, at a dot before a
// number, and a finder over the line of its opening.
#[derive(Clone, Copy, Debug)]
pub struct Cursor<'s> {
    pub settings: &'s Settings,
    pub source: &'s [u8],
    pub offset: usize,
    ghost within: { offset ≤ length source.now },
}

impl<'s> Cursor<'s> {
    ghost use Rattle.rules.specs.Cursors.{ahead};

    // The bytes to come.
    pub fn ahead(&self) -> &'s [u8]
        ensures { result.now ≡ ahead self.now }
    {
        after(self.source, self.offset)
    }

    // The bytes that were read.
    pub fn read(&self) -> &'s [u8]
        ensures { result.now ≡ take self.now.offset self.now.source.now }
    {
        until(self.source, self.offset)
    }
}
