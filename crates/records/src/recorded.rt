// Recorded pieces as a stream.
ghost use Rattle.std.specs.Prelude.{◌≡◌, List, length, IfOk, Ok};
ghost use Rattle.finder.specs.Finding.{Opening};
ghost use Rattle.records.specs.Faults.{tells};
ghost use Rattle.records.specs.Taken.{take_told, Means};

use super::fault::RecordFault;
use super::range::all_good;
use finder::Finder;
use pieces::{Piece, ReadFault};
use ranged::first_too_early;
use stream::Stream;

// Recorded pieces that are still to be told.
#[derive(Clone, Copy, Debug)]
pub struct Recorded<'p> {
    rest: &'p [Piece],
}

impl<'p> Recorded<'p> {
    // Takes records of a template: refuses a bad range in any of them, and then records that do not rise. Taken, they are a stream that tells all of them and
    // finishes.
    pub fn new(template: &[u8], pieces: &'p [Piece]) -> Result<Recorded<'p>, RecordFault>
        ensures told { tells result ≡ take_told (length template.now) pieces.now }
        ensures means { Means (length template.now) pieces.now (tells result) }
        ensures items { IfOk result (λ s. ⟦<Self as Stream>⟧.items s ≡ pieces.now) }
        ensures ending { IfOk result (λ s. ⟦<Self as Stream>⟧.ending s ≡ Ok tt) }
        ensures serves { IfOk result (λ s. (os : List Opening) → ⟦<Self as Stream>⟧.serves s os) }
        ensures left { IfOk result (λ s. ⟦<Self as Stream>⟧.left s ≡ length pieces.now) }
    {
        if !all_good(template.len(), pieces) {
            return Err(RecordFault::BadRange);
        }
        if let Some(index) = first_too_early(pieces) {
            return Err(RecordFault::TooEarly(index));
        }
        Ok(Recorded { rest: pieces })
    }
}

impl<'p> Stream for Recorded<'p> {
    type Item = Piece;

    type Fault = ReadFault;

    ghost items = { λ s. s.rest.now };

    ghost ending = { λ _. Ok tt };

    ghost serves = { λ _ _. Unit {0} };

    ghost left = { λ s. length s.rest.now };

    fn next<F: Finder>(&mut self, _finder: &F) -> Result<Option<Piece>, ReadFault> {
        let Some((first, rest)) = self.rest.split_first() else {
            return Ok(None);
        };
        self.rest = rest;
        Ok(Some(*first))
    }
}
