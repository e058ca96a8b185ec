// The layer that drops gaps.
ghost use Rattle.std.specs.Prelude.{◌≡◌, List};
ghost use Rattle.finder.specs.Finding.{Opening};
ghost use Rattle.layers.specs.Layers.{drop_gaps, Drops};

use super::parts::Gap;
use finder::Finder;
use stream::Stream;

// Any stream without its gaps.
#[derive(Drop)]
pub struct Tokens<S> {
    below: S,
}

impl<S: Stream> Tokens<S>
where
    S::Item: Gap,
{
    // The layer over a stream.
    #[tactic(auto, using(crate::proofs::Dropped::gaps_drops))]
    pub fn new(below: S) -> Tokens<S>
        ensures items { ⟦<Self as Stream>⟧.items result ≡ drop_gaps S.Item.Gap.gap (S.Stream.items below) }
        ensures ending { ⟦<Self as Stream>⟧.ending result ≡ S.Stream.ending below }
        ensures serves { (os : List Opening) → S.Stream.serves below os → ⟦<Self as Stream>⟧.serves result os }
        ensures left { ⟦<Self as Stream>⟧.left result ≡ S.Stream.left below }
        ensures drops { Drops S.Item.Gap.gap (S.Stream.items below) (⟦<Self as Stream>⟧.items result) }
        ensures made { result ≡ record { below = below } }
    {
        Tokens { below }
    }

    // The stream below, as it is now. Shift has this and `into_below` as well: a trait of both would only repeat the bodies in its impls.
    pub fn below(&self) -> &S
        ensures { result.now ≡ self.now.below }
    {
        &self.below
    }

    // The stream below back.
    pub fn into_below(self) -> S
        ensures { result ≡ self.below }
    {
        self.below
    }
}

impl<S: Stream> Stream for Tokens<S>
where
    S::Item: Gap,
{
    type Item = S::Item;

    type Fault = S::Fault;

    ghost items = { λ t. drop_gaps S.Item.Gap.gap (S.Stream.items t.below) };

    ghost ending = { λ t. S.Stream.ending t.below };

    ghost serves = { λ t os. S.Stream.serves t.below os };

    ghost left = { λ t. S.Stream.left t.below };

    fn next<F: Finder>(&mut self, finder: &F) -> Result<Option<S::Item>, S::Fault> {
        while let Some(x) = self.below.next(finder)? {
            if !x.is_gap() {
                return Ok(Some(x));
            }
        }
        Ok(None)
    }
}
