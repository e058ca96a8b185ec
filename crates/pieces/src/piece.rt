// Pieces.
ghost use Rattle.pieces.specs.Ranges.{begins, ends};

use super::kind::Kind;
use places::Span;
use ranged::Ranged;

// From one byte of a template up to, and without, another. A span's fields at another type: a generic range would be named at every use by what it is of, and no
// function does the same with both.
#[derive(Clone, Copy, Debug, PartialEq, Eq)]
pub struct TextRange {
    pub start: u32,
    pub end: u32,
}

// A piece of a template: what it is, where it stands, which bytes are its text, and its value: an integer's, or the decoded length of a string.
#[derive(Clone, Copy, Debug, PartialEq, Eq)]
pub struct Piece {
    pub kind: Kind,
    pub span: Span,
    pub text: TextRange,
    // It stands beside the kind, not in it: recorded pieces of any kind may come with it or without.
    pub value: Option<u64>,
}

impl Ranged for Piece {
    ghost begins = { begins };

    ghost ends = { ends };

    fn begin(&self) -> u64 {
        u64::from(self.span.start.offset)
    }

    fn end(&self) -> u64 {
        u64::from(self.span.end.offset)
    }
}
