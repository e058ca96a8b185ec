// Pieces and faults at their places.
ghost use Rattle.std.specs.Prelude.{◌≡◌, ◌+◌, ◌≤◌};
ghost use Rattle.places.specs.declared.Place.{Place as Spot};
ghost use Rattle.places.specs.Places.{capped};
ghost use Rattle.reader.specs.Limits.{max_len};
ghost use Rattle.rules.specs.Reading.{balance_at};
ghost use Rattle.rules.specs.Told.{fault_span, one_on};

use pieces::{FaultKind, TextRange};
use places::{Place, Span};
use rules::LexerState;

// One column and one byte further.
fn one_on(place: Place) -> Place
    ensures { result ≡ capped (one_on place) }
{
    Place {
        column: place.column.saturating_add(1),
        offset: place.offset.saturating_add(1),
        ..place
    }
}

// The span of a fault that is seen at `end` as what begins at `start` is read: a bad escape spans its string, any other one column at the end.
pub(crate) fn fault_span(kind: FaultKind, start: Place, end: Place) -> Span
    ensures { (p q : Spot) → start ≡ capped p → end ≡ capped q → result ≡ fault_span kind p q }
{
    match kind {
        FaultKind::Escape(_) => Span { start, end },
        _ => Span {
            start: end,
            end: one_on(end),
        },
    }
}

// The part of a piece at the offset that is its text.
pub(crate) fn text_range(offset: usize, from: usize, to: usize) -> TextRange
    requires to_bound { offset + to ≤ max_len }
    requires from_le_to { from ≤ to }
    ensures { result ≡ record { start = offset + from; end = offset + to } }
{
    TextRange {
        start: (offset + from) as u32,
        end: (offset + to) as u32,
    }
}

// The balance of brackets as it is told: that of the tag, or the last one in text.
pub(crate) fn balance_at(balance: i64, state: LexerState) -> i64
    ensures { result ≡ balance_at balance state }
{
    match state {
        LexerState::Inside(_, inner) => inner,
        LexerState::Template | LexerState::Over => balance,
    }
}
