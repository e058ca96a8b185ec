// Pieces as items of layers.
ghost use Rattle.layers.specs.Layers.{piece_gap, piece_line, shift_piece};

use super::base::Base;
use super::parts::{Gap, Placed};
use pieces::Piece;

impl Gap for Piece {
    ghost gap = { piece_gap };

    fn is_gap(&self) -> bool {
        self.kind.is_gap()
    }
}

impl Placed for Piece {
    ghost line = { piece_line };

    ghost shifted = { shift_piece };

    fn line(&self) -> u16 {
        self.span.start.line
    }

    fn shift(self, base: Base) -> Piece {
        Piece {
            span: base.shift_span(self.span),
            text: base.shift_range(self.text),
            ..self
        }
    }
}
