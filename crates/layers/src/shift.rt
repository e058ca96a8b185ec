// The layer that adds a base to places.
ghost use Rattle.std.specs.Prelude.{◌≡◌, List, Some, None};
ghost use Rattle.std.specs.Option.{option_or};
ghost use Rattle.finder.specs.Finding.{Opening};
ghost use Rattle.layers.specs.Layers.{first_line, shifted_items, shifted_ending, Shifts};

use super::base::Base;
use super::parts::Placed;
use finder::Finder;
use places::Place;
use stream::Stream;

// Any stream with a base added to its places; its first line is where the first item or fault that it took begins.
#[derive(Drop)]
pub struct Shift<S> {
    below: S,
    base: Base,
}

impl<S: Stream> Shift<S>
where
    S::Item: Placed,
    S::Fault: Placed,
{
    // The layer over a stream; no line is noted yet.
    pub fn new(below: S, base: Place) -> Shift<S>
        ensures items { ⟦<Self as Stream>⟧.items result ≡ shifted_items S.Item.Placed.line S.Fault.Placed.line S.Item.Placed.shifted base None (S.Stream.items below) (S.Stream.ending below) }
        ensures ending { ⟦<Self as Stream>⟧.ending result ≡ shifted_ending S.Item.Placed.line S.Fault.Placed.line S.Fault.Placed.shifted base None (S.Stream.items below) (S.Stream.ending below) }
        ensures serves { (os : List Opening) → S.Stream.serves below os → ⟦<Self as Stream>⟧.serves result os }
        ensures left { ⟦<Self as Stream>⟧.left result ≡ S.Stream.left below }
        ensures shifts { Shifts S.Item.Placed.shifted base (first_line S.Item.Placed.line S.Fault.Placed.line (S.Stream.items below) (S.Stream.ending below)) (S.Stream.items below) (⟦<Self as Stream>⟧.items result) }
        ensures made { result ≡ record { below = below; base = record { place = base; first = None } } }
    {
        Shift {
            below,
            base: Base {
                place: base,
                first: None,
            },
        }
    }

    // The stream below, as it is now.
    pub fn below(&self) -> &S
        ensures { result.now ≡ self.now.below }
    {
        &self.below
    }

    // The stream below back.
    pub fn into_below(self) -> S
        ensures { result ≡ self.below }
    {
        self.below
    }

    // What stands below, shifted; its line is noted where none is.
    fn shifted<T: Placed>(&mut self, x: T) -> T
        ensures value { result ≡ T.Placed.shifted self.new.base.place self.new.base.first x }
        ensures place { self.new.base.place ≡ self.old.base.place }
        ensures first { self.new.base.first ≡ option_or self.old.base.first (Some (T.Placed.line x)) }
        ensures below { self.new.below ≡ self.old.below }
    {
        self.base.first = self.base.first.or(Some(x.line()));
        x.shift(self.base)
    }
}

impl<S: Stream> Stream for Shift<S>
where
    S::Item: Placed,
    S::Fault: Placed,
{
    type Item = S::Item;

    type Fault = S::Fault;

    ghost items = { λ a. shifted_items S.Item.Placed.line S.Fault.Placed.line S.Item.Placed.shifted a.base.place a.base.first (S.Stream.items a.below) (S.Stream.ending a.below) };

    ghost ending = { λ a. shifted_ending S.Item.Placed.line S.Fault.Placed.line S.Fault.Placed.shifted a.base.place a.base.first (S.Stream.items a.below) (S.Stream.ending a.below) };

    ghost serves = { λ a os. S.Stream.serves a.below os };

    ghost left = { λ a. S.Stream.left a.below };

    fn next<F: Finder>(&mut self, finder: &F) -> Result<Option<S::Item>, S::Fault> {
        match self.below.next(finder) {
            Ok(Some(x)) => Ok(Some(self.shifted(x))),
            Ok(None) => Ok(None),
            Err(fault) => Err(self.shifted(fault)),
        }
    }
}
