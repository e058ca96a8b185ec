// Ranges of a template.
ghost use Rattle.std.specs.Prelude.{◌≡◌, false};
ghost use Rattle.records.specs.Taken.{fits as inside, is_good, all_good, SomeBad};

use pieces::Piece;

// Whether this is a range of a template of so many bytes.
fn fits(len: usize, start: u32, end: u32) -> bool
    ensures { result ≡ inside len start end }
{
    start <= end && end as usize <= len
}

// Whether both ranges of a record are.
pub(super) fn is_good(len: usize, piece: Piece) -> bool
    ensures { result ≡ is_good len piece }
{
    fits(len, piece.span.start.offset, piece.span.end.offset)
        && fits(len, piece.text.start, piece.text.end)
}

// Whether those of all records are.
pub(super) fn all_good(len: usize, pieces: &[Piece]) -> bool
    ensures value { result ≡ all_good len pieces.now }
    ensures bad { result ≡ false → SomeBad len pieces.now }
{
    pieces.iter().all(|piece| is_good(len, *piece))
}
