// Places in a template: lines from 1, columns from 0 in characters, offsets in bytes.

#![tactic(auto)]

ghost use Rattle.std.specs.Prelude.{◌≡◌, ℕ, Some, List, [], ◌++◌, length};
ghost use Rattle.std.proofs.Math.Utf8.{encodes};
ghost use Rattle.places.specs.Places.{count_chars, first_place, OneEach, past, beyond, capped, place_behind, place_text};

mod counts;

use counts::{Lead, Lf, add_u16, add_u32, count, is_one_each, since_lf};
use std::fmt;

// A place. A number that its type does not hold is told as the highest that it does.
#[derive(Clone, Copy, Debug, PartialEq, Eq, PartialOrd, Ord)]
pub struct Place {
    // 1 and the LFs before.
    pub line: u16,
    // The characters since the last LF.
    pub column: u16,
    // The bytes before.
    pub offset: u32,
}

// From one place up to, and without, another.
#[derive(Clone, Copy, Debug, PartialEq, Eq)]
pub struct Span {
    pub start: Place,
    pub end: Place,
}

impl Place {
    // The place before the first byte.
    pub fn start() -> Place
        ensures value { result ≡ first_place }
        ensures told { result ≡ capped (place_behind []) }
    {
        Place {
            line: 1,
            column: 0,
            offset: 0,
        }
    }

    // The place behind one more byte. Bytes 80 to BF hex go on with a character, so they count no column.
    fn step(self, b: u8) -> Place
        ensures { result ≡ capped (past b self) }
    {
        let offset = self.offset.saturating_add(1);
        match b {
            b'\n' => Place {
                line: self.line.saturating_add(1),
                column: 0,
                offset,
            },
            0x80..=0xBF => Place { offset, ..self },
            _ => Place {
                column: self.column.saturating_add(1),
                offset,
                ..self
            },
        }
    }

    // The place behind so many bytes of one line that are a character each.
    #[inline(always)]
    fn along(self, len: usize) -> Place
        ensures { (xs : List ℕ) → length xs ≡ len → OneEach xs → result ≡ capped (beyond xs self) }
    {
        Place {
            line: self.line,
            column: add_u16(self.column, len),
            offset: add_u32(self.offset, len),
        }
    }

    // The place behind a few bytes: one after the other, but for those that are a character each.
    #[inline(always)]
    fn walk(self, bytes: &[u8]) -> Place
        ensures { result ≡ capped (beyond bytes.now self) }
    {
        if is_one_each(bytes) {
            return self.along(bytes.len());
        }
        bytes.iter().fold(self, |place, b| place.step(*b))
    }

    // The place behind many bytes: LFs and characters are counted, 32 bytes at a time.
    fn leap(self, bytes: &[u8]) -> Place
        ensures { result ≡ capped (beyond bytes.now self) }
    {
        let lines = count::<Lf>(bytes);
        let column = if lines == 0 { self.column } else { 0 };
        Place {
            line: add_u16(self.line, lines),
            column: add_u16(column, count::<Lead>(since_lf(bytes))),
            offset: add_u32(self.offset, bytes.len()),
        }
    }

    // The place behind `bytes`, which stand at this place.
    #[inline(always)]
    #[tactic(auto, using(crate::proofs::Characters::counts_characters))]
    pub fn advance(self, bytes: &[u8]) -> Place
        ensures value { result ≡ capped (beyond bytes.now self) }
        ensures told { (xs : List ℕ) → self ≡ capped (place_behind xs) → result ≡ capped (place_behind (xs ++ bytes.now)) }
        ensures characters { (cs : List ℕ) → count_chars (encodes cs) ≡ length cs }
    {
        if bytes.len() < 32 {
            return self.walk(bytes);
        }
        let (front, rest) = bytes.split_at(bytes.len() / 32 * 32);
        self.leap(front).walk(rest)
    }
}

impl fmt::Display for Place {
    ghost output = { λ p. Some (place_text p) };

    fn fmt<W: fmt::Write>(&self, f: &mut fmt::Formatter<W>) -> fmt::Result {
        write!(f, "{}:{}:{}", self.line, self.column, self.offset)
    }
}
