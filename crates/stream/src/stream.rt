// Streams: items still to come, and an ending.
ghost use Rattle.std.specs.Prelude.{ℕ, List, Result};
ghost use Rattle.finder.specs.Finding.{Opening};
ghost use Rattle.stream.specs.Told.{Ending, Next, Falls};

use finder::Finder;

// How a stream ends: it is finished, or it failed with one fault.
pub type Ending<F> = Result<(), F>;

// A stream means the items still to come and an ending.
pub trait Stream {
    type Item: Copy;

    type Fault: Copy;

    ghost items: { Self → List Self.Item };

    ghost ending: { Self → Ending Self.Fault };

    // the openings of a finder that may serve a call: where they are others, only safety is owed
    ghost serves: { Self → List Opening → Type 0 };

    // falls with each item, whichever finder serves the call
    ghost left: { Self → ℕ };

    // Takes the first item off and tells it; with none left it tells that the stream is finished, or its fault, and the meaning stays.
    fn next<F: Finder>(&mut self, finder: &F) -> Result<Option<Self::Item>, Self::Fault>
        ensures tells { serves self.old (F.Finder.openings finder.now) → Next (items self.old) (ending self.old) result (items self.new) (ending self.new) }
        ensures serves { (os : List Opening) → serves self.old os → serves self.new os }
        ensures falls { Falls (left self.old) result (left self.new) };
}
