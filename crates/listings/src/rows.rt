// The layer that makes rows of pieces.
ghost use Rattle.std.specs.Prelude.{◌≡◌, ◌≤◌, true, List, ◌∷◌};
ghost use Rattle.finder.specs.Finding.{Opening};
ghost use Rattle.listings.specs.Rows.{is_white, put, joined, Takes, FallsIf};

use super::row::Row;
use finder::Finder;
use pieces::{Kind, Piece};
use stream::{LookAhead, Stream};

// Any stream of pieces in rows: the look-ahead tells whether the next piece is white too.
#[derive(Drop)]
pub(crate) struct Rows<S: Stream<Item = Piece>> {
    pieces: LookAhead<S>,
}

impl<S: Stream<Item = Piece>> Rows<S> {
    // The rows of a stream.
    pub(crate) fn new(pieces: S) -> Rows<S>
        ensures items { ⟦<Self as Stream>⟧.items result ≡ joined (S.Stream.items pieces) }
        ensures ending { ⟦<Self as Stream>⟧.ending result ≡ S.Stream.ending pieces }
        ensures serves { (os : List Opening) → S.Stream.serves pieces os → ⟦<Self as Stream>⟧.serves result os }
        ensures left { ⟦<Self as Stream>⟧.left result ≡ S.Stream.left pieces }
    {
        Rows {
            pieces: LookAhead::new(pieces),
        }
    }

    // Takes the next piece, if it is white.
    fn take_white<F: Finder>(&mut self, finder: &F) -> Option<Piece>
        ensures takes { ⟦<LookAhead<S> as Stream>⟧.serves self.old.pieces (F.Finder.openings finder.now) → Takes (⟦<LookAhead<S> as Stream>⟧.items self.old.pieces) result (⟦<LookAhead<S> as Stream>⟧.items self.new.pieces) }
        ensures ending { ⟦<LookAhead<S> as Stream>⟧.serves self.old.pieces (F.Finder.openings finder.now) → ⟦<LookAhead<S> as Stream>⟧.ending self.new.pieces ≡ ⟦<LookAhead<S> as Stream>⟧.ending self.old.pieces }
        ensures serves { (os : List Opening) → ⟦<LookAhead<S> as Stream>⟧.serves self.old.pieces os → ⟦<LookAhead<S> as Stream>⟧.serves self.new.pieces os }
        ensures falls { FallsIf result (⟦<LookAhead<S> as Stream>⟧.left self.old.pieces) (⟦<LookAhead<S> as Stream>⟧.left self.new.pieces) }
    {
        match self.pieces.look(finder) {
            // No fault is lost: the look told a piece, so next tells that piece.
            Ok(Some(piece)) if piece.kind == Kind::White => self.pieces.next(finder).ok().flatten(),
            _ => None,
        }
    }

    // Joins to a white row the white pieces that come next.
    #[tactic(auto, using(crate::proofs::Runs::put_white, crate::proofs::Runs::put_stops))]
    fn join_whites<F: Finder>(&mut self, finder: &F, mut row: Row) -> Row
        requires { is_white row.kind ≡ true }
        ensures joins { ⟦<LookAhead<S> as Stream>⟧.serves self.old.pieces (F.Finder.openings finder.now) → put row (joined (⟦<LookAhead<S> as Stream>⟧.items self.old.pieces)) ≡ result ∷ joined (⟦<LookAhead<S> as Stream>⟧.items self.new.pieces) }
        ensures ending { ⟦<LookAhead<S> as Stream>⟧.serves self.old.pieces (F.Finder.openings finder.now) → ⟦<LookAhead<S> as Stream>⟧.ending self.new.pieces ≡ ⟦<LookAhead<S> as Stream>⟧.ending self.old.pieces }
        ensures serves { (os : List Opening) → ⟦<LookAhead<S> as Stream>⟧.serves self.old.pieces os → ⟦<LookAhead<S> as Stream>⟧.serves self.new.pieces os }
        ensures falls { ⟦<LookAhead<S> as Stream>⟧.left self.new.pieces ≤ ⟦<LookAhead<S> as Stream>⟧.left self.old.pieces }
    {
        while let Some(white) = self.take_white(finder) {
            row.span.end = white.span.end;
        }
        row
    }
}

// A stream of rows: the pieces below, of which white neighbours are joined.
impl<S: Stream<Item = Piece>> Stream for Rows<S> {
    type Item = Row;

    type Fault = S::Fault;

    ghost items = { λ r. joined (⟦<LookAhead<S> as Stream>⟧.items r.pieces) };

    ghost ending = { λ r. ⟦<LookAhead<S> as Stream>⟧.ending r.pieces };

    ghost serves = { λ r os. ⟦<LookAhead<S> as Stream>⟧.serves r.pieces os };

    ghost left = { λ r. ⟦<LookAhead<S> as Stream>⟧.left r.pieces };

    #[tactic(auto, using(crate::proofs::Runs::joined_none, crate::proofs::Runs::joined_more, crate::proofs::Runs::put_other))]
    fn next<F: Finder>(&mut self, finder: &F) -> Result<Option<Row>, S::Fault> {
        match self.pieces.next(finder)? {
            Some(piece) if piece.kind == Kind::White => {
                Ok(Some(self.join_whites(finder, piece.into())))
            }
            Some(piece) => Ok(Some(piece.into())),
            None => Ok(None),
        }
    }
}
