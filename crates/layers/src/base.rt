// The base that is added to places.
ghost use Rattle.std.specs.Prelude.{◌≡◌};
ghost use Rattle.layers.specs.Layers.{shift_place, shift_span, shift_range};

use pieces::TextRange;
use places::{Place, Span};

// A place that is added to others, and their first line, if it is known: only there columns move.
#[derive(Clone, Copy, Debug, PartialEq, Eq)]
pub struct Base {
    pub place: Place,
    pub first: Option<u16>,
}

impl Base {
    // A place with the base added, up to what the numbers hold.
    pub fn shift_place(self, place: Place) -> Place
        ensures { result ≡ shift_place self.place self.first place }
    {
        let column = if self.first == Some(place.line) {
            place.column.saturating_add(self.place.column)
        } else {
            place.column
        };
        Place {
            line: place.line.saturating_add(self.place.line),
            column,
            offset: place.offset.saturating_add(self.place.offset),
        }
    }

    // Both places of a span.
    pub fn shift_span(self, span: Span) -> Span
        ensures { result ≡ shift_span self.place self.first span }
    {
        Span {
            start: self.shift_place(span.start),
            end: self.shift_place(span.end),
        }
    }

    // Both ends of a text range.
    pub fn shift_range(self, text: TextRange) -> TextRange
        ensures { result ≡ shift_range self.place text }
    {
        TextRange {
            start: text.start.saturating_add(self.place.offset),
            end: text.end.saturating_add(self.place.offset),
        }
    }
}
