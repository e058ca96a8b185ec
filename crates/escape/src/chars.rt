// The characters of a text as a stream.
ghost use Rattle.std.specs.Prelude.{◌≡◌, ◌-◌, List, length, drop};
ghost use Rattle.finder.specs.Finding.{Opening};
ghost use Rattle.utf8.specs.Utf8.{characters};
ghost use Rattle.escape.specs.Characters.{closed};

use finder::Finder;
use stream::Stream;
use utf8::{NotUtf8, char_at};

// The characters of a text from a place on, each with its byte offset. A text that is not UTF-8 fails behind its well-formed prefix.
// The bytes that were read are kept, since offsets count from the start.
#[derive(Clone, Copy, Debug)]
pub struct CharIndices<'t> {
    text: &'t [u8],
    at: usize,
}

impl<'t> CharIndices<'t> {
    // The characters of the whole text.
    pub fn new(text: &'t [u8]) -> CharIndices<'t>
        ensures items { ⟦<Self as Stream>⟧.items result ≡ characters 0 text.now }
        ensures ending { ⟦<Self as Stream>⟧.ending result ≡ closed 0 text.now }
        ensures serves { (os : List Opening) → ⟦<Self as Stream>⟧.serves result os }
        ensures left { ⟦<Self as Stream>⟧.left result ≡ length text.now }
        ensures start { (result.at ≡ 0) × (result.text.now ≡ text.now) }
    {
        CharIndices { text, at: 0 }
    }
}

impl<'t> Stream for CharIndices<'t> {
    type Item = (usize, char);

    type Fault = NotUtf8;

    ghost items = { λ c. characters c.at (drop c.at c.text.now) };

    ghost ending = { λ c. closed c.at (drop c.at c.text.now) };

    ghost serves = { λ _ _. Unit {0} };

    ghost left = { λ c. length c.text.now - c.at };

    #[tactic(auto, using(crate::proofs::Closes::items_more, crate::proofs::Closes::ending_more, crate::proofs::Closes::items_none, crate::proofs::Closes::ending_bad, crate::proofs::Closes::ending_none))]
    fn next<F: Finder>(&mut self, _finder: &F) -> Result<Option<(usize, char)>, NotUtf8> {
        let at = self.at;
        match char_at(self.text, at) {
            Some(c) => {
                // a stream moves by the character that it tells
                self.at = at + c.width;
                Ok(Some((at, c.code)))
            }
            None if at < self.text.len() => Err(NotUtf8 { byte: at }),
            None => Ok(None),
        }
    }
}
