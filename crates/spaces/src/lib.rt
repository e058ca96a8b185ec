// White space in bytes: the runs at the front and at a place, blanks and the ends of lines.

#![tactic(auto)]

ghost use Rattle.std.specs.Prelude.{◌≡◌, ℕ, Bool, take, None, Decides};
ghost use Rattle.std.specs.Char.{is_whitespace};
ghost use Rattle.ranged.specs.Ranges.{first_too_early, Rising};
ghost use Rattle.spaces.specs.Spaces.{white_space, begins, ends, in_ranges, in_line, Held, holds as range_holds};
ghost use Rattle.spaces.specs.Runs.{white_run, white_tail, Longest, LongestTail, Ends, Reaches, Leads};
ghost use Rattle.spaces.specs.Lines.{is_blank, blank_run, line_end, LongestBlank, LineEnd};

use byte_search::{after, until};
use ranged::{Ranged, first_too_early};
use utf8::{Char, char_at, is_continuation};

// The code points from `first` to `last`.
#[derive(Clone, Copy, Debug, PartialEq, Eq)]
pub struct CodeRange {
    pub first: u32,
    pub last: u32,
}

impl CodeRange {
    // Whether the range holds `c`.
    pub fn holds(&self, c: char) -> bool
        ensures { result ≡ range_holds self.now c }
    {
        (self.first..=self.last).contains(&u32::from(c))
    }
}

impl Ranged for CodeRange {
    ghost begins = { begins };

    ghost ends = { ends };

    fn begin(&self) -> u64 {
        u64::from(self.first)
    }

    fn end(&self) -> u64 {
        u64::from(self.last) + 1
    }
}

// The code points with the property White_Space.
static WHITE_SPACE: [CodeRange; 10] = [
    CodeRange {
        first: 0x0009,
        last: 0x000D,
    },
    CodeRange {
        first: 0x0020,
        last: 0x0020,
    },
    CodeRange {
        first: 0x0085,
        last: 0x0085,
    },
    CodeRange {
        first: 0x00A0,
        last: 0x00A0,
    },
    CodeRange {
        first: 0x1680,
        last: 0x1680,
    },
    CodeRange {
        first: 0x2000,
        last: 0x200A,
    },
    CodeRange {
        first: 0x2028,
        last: 0x2029,
    },
    CodeRange {
        first: 0x202F,
        last: 0x202F,
    },
    CodeRange {
        first: 0x205F,
        last: 0x205F,
    },
    CodeRange {
        first: 0x3000,
        last: 0x3000,
    },
];

// The code points with the property White_Space, in rising order: the one check of ranged records finds none of the ranges too early, which is proved.
pub fn white_space() -> &'static [CodeRange]
    ensures value { result.now ≡ white_space }
    ensures rises { first_too_early begins ends result.now ≡ None }
    ensures rising { Rising begins ends result.now }
    ensures agrees { (c : ℕ) → in_ranges result.now c ≡ is_whitespace c }
{
    prove!(first_too_early(&WHITE_SPACE).is_none());
    &WHITE_SPACE
}

// Whether one of the ranges holds `c`.
pub fn in_ranges(ranges: &[CodeRange], c: char) -> bool
    ensures value { result ≡ in_ranges ranges.now c }
    ensures held { Decides result (Held ranges.now c) }
{
    ranges.iter().any(|range| range.holds(c))
}

// A set of characters.
pub trait CharSet {
    ghost has: { Self → ℕ → Bool };

    fn contains(&self, c: char) -> bool
        ensures { result ≡ has self.now c };
}

// The characters of the ranges, White_Space as a rule.
#[derive(Clone, Copy, Debug, PartialEq, Eq)]
pub struct White<'s> {
    pub ranges: &'s [CodeRange],
}

impl White<'static> {
    // White_Space.
    pub fn new() -> White<'static>
        ensures { result.ranges.now ≡ white_space }
    {
        White {
            ranges: white_space(),
        }
    }
}

impl<'s> CharSet for White<'s> {
    ghost has = { λ w. in_ranges w.ranges.now };

    fn contains(&self, c: char) -> bool {
        in_ranges(self.ranges, c)
    }
}

// The characters of a set of ranges other than CR and LF.
#[derive(Clone, Copy, Debug, PartialEq, Eq)]
pub struct InlineWhite<'s> {
    pub white: White<'s>,
}

impl InlineWhite<'static> {
    // White_Space other than CR and LF.
    pub fn new() -> InlineWhite<'static>
        ensures { result.white.ranges.now ≡ white_space }
    {
        InlineWhite {
            white: White::new(),
        }
    }
}

impl<'s> CharSet for InlineWhite<'s> {
    ghost has = { λ w. in_line w.white.ranges.now };

    fn contains(&self, c: char) -> bool {
        match c {
            '\r' | '\n' => false,
            _ => self.white.contains(c),
        }
    }
}

// How many bytes the characters of the set at the front have.
pub fn run_forward<C: CharSet>(set: &C, s: &[u8]) -> usize
    ensures value { result ≡ white_run (C.CharSet.has set.now) s.now }
    ensures longest { Longest (C.CharSet.has set.now) s.now result }
{
    // By hand: the place moves by the width of a character, which no iterator over bytes does.
    let mut end = 0;
    while let Some(c) = char_at(s, end)
        && set.contains(c.code)
    {
        end += c.width;
    }
    end
}

// The character at `start`, if it reaches to the end.
fn reaching(s: &[u8], start: usize) -> Option<Char>
    ensures { Reaches s.now start result }
{
    char_at(s, start).filter(|c| c.width == after(s, start).len())
}

// The last byte that goes on with no character.
fn last_lead(s: &[u8]) -> Option<usize>
    ensures { Leads s.now result }
{
    s.iter().rposition(|b| !is_continuation(*b))
}

// The character that ends at `at`, or at the end where that is past it.
pub fn char_before(s: &[u8], at: usize) -> Option<Char>
    ensures { Ends (take at s.now) result }
{
    let front = until(s, at);
    let skipped = front.len().saturating_sub(4);
    let lead = last_lead(after(front, skipped))?;
    reaching(front, skipped + lead)
}

// How many bytes the characters of the set have that end at `at`, or at the end where that is past it.
pub fn run_backward<C: CharSet>(set: &C, s: &[u8], at: usize) -> usize
    ensures value { result ≡ white_tail (C.CharSet.has set.now) (take at s.now) }
    ensures longest { LongestTail (C.CharSet.has set.now) (take at s.now) result }
{
    let front = until(s, at);
    // By hand, as forward.
    let mut start = front.len();
    while let Some(c) = char_before(front, start)
        && set.contains(c.code)
    {
        start -= c.width;
    }
    front.len() - start
}

// Whether `b` is space, tab, LF, FF or CR.
pub fn is_ascii_blank(b: u8) -> bool
    ensures { result ≡ is_blank b }
{
    matches!(b, b' ' | b'\t' | b'\n' | 0x0C | b'\r')
}

// How many blanks stand at the front.
pub fn blank_run(s: &[u8]) -> usize
    ensures value { result ≡ blank_run s.now }
    ensures longest { LongestBlank s.now result }
{
    s.iter()
        .position(|b| !is_ascii_blank(*b))
        .unwrap_or(s.len())
}

// How many bytes CR LF, LF or CR at the front has, 0 where none of them stands there: two callers add it and two test it for 0, which an `Option` would make no plainer.
pub fn line_end(s: &[u8]) -> usize
    ensures value { result ≡ line_end s.now }
    ensures told { LineEnd s.now result }
{
    match s {
        [b'\r', b'\n', ..] => 2,
        [b'\r', ..] => 1,
        [b'\n', ..] => 1,
        _ => 0,
    }
}
