// The decoder of escapes: a stream of characters over a text's characters.
ghost use Rattle.std.specs.Prelude.{◌≡◌, length};
ghost use Rattle.escape.specs.Escapes.{unescaped};
ghost use Rattle.utf8.specs.Utf8.{characters};
ghost use Rattle.escape.specs.Characters.{closed};
ghost use Rattle.escape.specs.Meaning.{room, means};

use super::fault::{BadEscape, DecodeFault};
use super::source::Source;
use finder::Finder;
use stream::Stream;

// A text's characters, and the bad escape where one was met.
#[derive(Drop)]
pub struct Unescaper<'t> {
    source: Source<'t>,
    fault: Option<BadEscape>,
}

impl<'t> Unescaper<'t> {
    // A decoder of a text.
    pub fn new(text: &'t [u8]) -> Unescaper<'t>
        ensures meaning { means result ≡ unescaped (characters 0 text.now) (closed 0 text.now) }
        ensures room { room result ≡ length text.now }
    {
        Unescaper {
            source: Source::new(text),
            fault: None,
        }
    }
}

// The characters that the text means, up to the first bad escape, which stays the fault.
impl<'t> Stream for Unescaper<'t> {
    type Item = char;

    type Fault = DecodeFault;

    ghost items = { λ u. (means u).points };

    ghost ending = { λ u. (means u).ending };

    ghost serves = { λ _ _. Unit {0} };

    ghost left = { λ u. room u };

    #[tactic(auto, using(crate::proofs::Means::means_plain, crate::proofs::Means::means_bad, crate::proofs::Means::means_end))]
    fn next<F: Finder>(&mut self, _finder: &F) -> Result<Option<char>, DecodeFault> {
        if let Some(fault) = self.fault {
            return Err(fault.into());
        }
        match self.source.next_char()? {
            Some((backslash, '\\')) => {
                let meant = self.source.escape().ok_or(BadEscape { backslash });
                self.fault = meant.err();
                Ok(Some(meant?))
            }
            Some((_, c)) => Ok(Some(c)),
            None => Ok(None),
        }
    }
}
