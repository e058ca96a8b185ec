// One look ahead, over streams of every item.
ghost use Rattle.std.specs.Prelude.{◌≡◌, ◌+◌, ◌≤◌, List, ◌++◌, length};
ghost use Rattle.std.specs.Option.{option_to_list};
ghost use Rattle.finder.specs.Finding.{Opening};
ghost use Rattle.stream.specs.Told.{Look};

use super::stream::Stream;
use finder::Finder;

// Any stream, and at most one item that was taken off it and not told yet.
#[derive(Drop)]
pub struct LookAhead<S: Stream> {
    below: S,
    held: Option<S::Item>,
}

impl<S: Stream> LookAhead<S> {
    // A look-ahead over a stream; it means what the stream means.
    pub fn new(below: S) -> LookAhead<S>
        ensures items { ⟦<Self as Stream>⟧.items result ≡ S.Stream.items below }
        ensures ending { ⟦<Self as Stream>⟧.ending result ≡ S.Stream.ending below }
        ensures serves { (os : List Opening) → S.Stream.serves below os → ⟦<Self as Stream>⟧.serves result os }
        ensures left { ⟦<Self as Stream>⟧.left result ≡ S.Stream.left below }
        ensures made { result ≡ record { below = below; held = None } }
    {
        LookAhead { below, held: None }
    }

    // Tells what next will tell, and leaves the meaning.
    pub fn look<F: Finder>(&mut self, finder: &F) -> Result<Option<S::Item>, S::Fault>
        ensures tells { ⟦<Self as Stream>⟧.serves self.old (F.Finder.openings finder.now) → Look (⟦<Self as Stream>⟧.items self.old) (⟦<Self as Stream>⟧.ending self.old) result }
        ensures items { ⟦<Self as Stream>⟧.serves self.old (F.Finder.openings finder.now) → ⟦<Self as Stream>⟧.items self.new ≡ ⟦<Self as Stream>⟧.items self.old }
        ensures ending { ⟦<Self as Stream>⟧.serves self.old (F.Finder.openings finder.now) → ⟦<Self as Stream>⟧.ending self.new ≡ ⟦<Self as Stream>⟧.ending self.old }
        ensures serves { (os : List Opening) → ⟦<Self as Stream>⟧.serves self.old os → ⟦<Self as Stream>⟧.serves self.new os }
        ensures left { ⟦<Self as Stream>⟧.left self.new ≤ ⟦<Self as Stream>⟧.left self.old }
    {
        if self.held.is_none() {
            self.held = self.below.next(finder)?;
        }
        Ok(self.held)
    }
}

impl<S: Stream> Stream for LookAhead<S> {
    type Item = S::Item;

    type Fault = S::Fault;

    ghost items = { λ a. option_to_list a.held ++ S.Stream.items a.below };

    ghost ending = { λ a. S.Stream.ending a.below };

    ghost serves = { λ a os. S.Stream.serves a.below os };

    ghost left = { λ a. length (option_to_list a.held) + S.Stream.left a.below };

    fn next<F: Finder>(&mut self, finder: &F) -> Result<Option<S::Item>, S::Fault> {
        match self.held.take() {
            Some(x) => Ok(Some(x)),
            None => self.below.next(finder),
        }
    }
}
