// Piles of layers over a reader, and calls on them.
ghost use Rattle.std.specs.Prelude.{◌≡◌, List, [], ◌∷◌, map, None, refl};
ghost use Rattle.std.proofs.Common.{ap, ◌∙◌};
ghost use Rattle.finder.specs.Finding.{Opening};
ghost use Rattle.reader.specs.Views.{Lawful};
ghost use Rattle.reader.specs.declared.reader.Reader.{Reader};
ghost use Rattle.runs.specs.Piles.{Layer, Tokens as of_tokens, Shift as of_shift, LookAhead as of_look_ahead};
ghost use Rattle.runs.specs.Piles.{meant, of_pieces, without_gaps, shifted_by, with_held, pile_of, IsPile, Tells, unanswered, Answered, AllServe};

use finder::Finder;
use layers::{Shift, Tokens};
use pieces::{Piece, ReadFault};
use reader::Reader;
use stream::{LookAhead, Stream};

// What is called on a pile: next, or look.
#[derive(Clone, Copy, Debug, PartialEq, Eq)]
pub enum PileCall {
    Takes,
    Looks,
}

// A call on a pile, the finder that serves it, and the answer, once it is told.
#[derive(Clone, Copy, Debug, PartialEq, Eq)]
pub struct Turn<F> {
    pub call: PileCall,
    pub finder: F,
    pub answer: Option<Result<Option<Piece>, ReadFault>>,
}

// A stream that is a pile of layers over a reader: the reader itself, or a layer over a pile.
pub trait Pile: Stream<Item = Piece, Fault = ReadFault> {
    // the layers, the topmost first
    ghost layers: { Self → List Layer };

    // the reader below them
    ghost lowest: { Self → Reader };

    // as its layers' constructors made it: none holds an item, and none has noted a line
    ghost fresh: { Self → Type 0 };

    // so it means what the layers make of what the reader means
    ghost means: { (x : Self) → fresh x → IsPile (layers x) (lowest x) (Self.items x) (Self.ending x) };

    // and finders that are lawful for the reader serve it
    ghost served: { (x : Self) (os : List Opening) → Lawful (lowest x) os → Self.serves x os };
}

impl<'t> Pile for Reader<'t> {
    ghost layers = { λ r. [] };

    ghost lowest = { λ r. r };

    ghost fresh = { λ r. Unit {0} };

    ghost means = { λ r h. refl };

    ghost served = { λ r os h. h };
}

impl<S: Pile> Pile for Tokens<S> {
    ghost layers = { λ x. of_tokens ∷ S.layers x.below };

    ghost lowest = { λ x. S.lowest x.below };

    ghost fresh = { λ x. S.fresh x.below };

    ghost means = { λ x h. ap (without_gaps of_pieces) (S.means x.below h) };

    ghost served = { λ x os h. S.served x.below os h };
}

impl<S: Pile> Pile for Shift<S> {
    ghost layers = { λ x. of_shift x.base.place ∷ S.layers x.below };

    ghost lowest = { λ x. S.lowest x.below };

    ghost fresh = { λ x. (x.base.first ≡ None) × S.fresh x.below };

    ghost means = { λ x h. ap (λ f. shifted_by of_pieces x.base.place f (meant (S.items x.below) (S.ending x.below))) h.0 ∙ ap (shifted_by of_pieces x.base.place None) (S.means x.below h.1) };

    ghost served = { λ x os h. S.served x.below os h };
}

impl<S: Pile> Pile for LookAhead<S> {
    ghost layers = { λ x. of_look_ahead ∷ S.layers x.below };

    ghost lowest = { λ x. S.lowest x.below };

    ghost fresh = { λ x. (x.held ≡ None) × S.fresh x.below };

    ghost means = { λ x h. ap (λ o. with_held o (meant (S.items x.below) (S.ending x.below))) h.0 ∙ S.means x.below h.1 };

    ghost served = { λ x os h. S.served x.below os h };
}

// What a pile with a look-ahead on top tells to one call.
fn answer<S: Stream<Item = Piece, Fault = ReadFault>, F: Finder>(
    pile: &mut LookAhead<S>,
    call: PileCall,
    finder: &F,
) -> Result<Option<Piece>, ReadFault>
    ensures tells { ⟦<LookAhead<S> as Stream>⟧.serves pile.old (F.Finder.openings finder.now) → Tells (meant (⟦<LookAhead<S> as Stream>⟧.items pile.old) (⟦<LookAhead<S> as Stream>⟧.ending pile.old)) call result (meant (⟦<LookAhead<S> as Stream>⟧.items pile.new) (⟦<LookAhead<S> as Stream>⟧.ending pile.new)) }
    ensures serves { (os : List Opening) → ⟦<LookAhead<S> as Stream>⟧.serves pile.old os → ⟦<LookAhead<S> as Stream>⟧.serves pile.new os }
{
    match call {
        PileCall::Takes => pile.next(finder),
        PileCall::Looks => pile.look(finder),
    }
}

// Makes one call after another on a stream with a look-ahead on top.
fn answer_all<S: Stream<Item = Piece, Fault = ReadFault>, F: Finder>(
    pile: &mut LookAhead<S>,
    turns: &mut [Turn<F>],
)
    ensures asked { map unanswered turns.new ≡ map unanswered turns.old }
    ensures answers { AllServe (⟦<LookAhead<S> as Stream>⟧.serves pile.old) F.Finder.openings turns.old → Answered (meant (⟦<LookAhead<S> as Stream>⟧.items pile.old) (⟦<LookAhead<S> as Stream>⟧.ending pile.old)) turns.old turns.new }
{
    for turn in turns.iter_mut() {
        turn.answer = Some(answer(pile, turn.call, &turn.finder));
    }
}

// Takes a pile, puts a look-ahead on it, makes one call after another on it, and writes each answer beside its call: what the pile means, wherever it stands, told
// one after the other. A pile as its layers' constructors made it, served by finders that are lawful for the reader below, answers as its layers over what that
// reader means.
pub fn drive_pile<P: Pile + Drop, F: Finder>(pile: P, turns: &mut [Turn<F>])
    ensures asked { map unanswered turns.new ≡ map unanswered turns.old }
    ensures means { AllServe (P.Stream.serves pile) F.Finder.openings turns.old → Answered (meant (P.Stream.items pile) (P.Stream.ending pile)) turns.old turns.new }
    ensures answers { P.fresh pile → AllServe (Lawful (P.lowest pile)) F.Finder.openings turns.old → Answered (pile_of (of_look_ahead ∷ P.layers pile) (P.lowest pile)) turns.old turns.new }
{
    let mut pile = LookAhead::new(pile);
    answer_all(&mut pile, turns);
}
