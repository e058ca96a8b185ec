// The rows of a listing.
ghost use Rattle.std.specs.Prelude.{◌≡◌, Some};
ghost use Rattle.listings.specs.Rows.{row_of, row_text};

use pieces::{Kind, Piece};
use places::Span;
use std::fmt;

// What stands on a line of the listing: a piece, or white ones that are neighbours.
#[derive(Clone, Copy, Debug, PartialEq, Eq)]
pub(crate) struct Row {
    pub(crate) kind: Kind,
    pub(crate) span: Span,
}

// The row of one piece.
impl From<Piece> for Row {
    ghost from_gives = { λ p r. r ≡ row_of p };

    fn from(piece: Piece) -> Row {
        Row {
            kind: piece.kind,
            span: piece.span,
        }
    }
}

// Shown by the kind's name, and the places where it starts and ends.
impl fmt::Display for Row {
    ghost output = { λ r. Some (row_text r) };

    fn fmt<W: fmt::Write>(&self, f: &mut fmt::Formatter<W>) -> fmt::Result {
        write!(f, "{} {} {}", self.kind, self.span.start, self.span.end)
    }
}
