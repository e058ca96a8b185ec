// Places that a finder follows in a source.
ghost use Rattle.std.specs.Prelude.{◌≡◌, ℕ, ◌+◌, ◌≤◌, List, ◌++◌, reverse, length, take};
ghost use Rattle.finder.specs.Finding.{is_space_or_tab, blank_line};

use byte_search::{after, until};
use finder::is_line_end;

// A space or a tab.
fn is_space_or_tab(b: u8) -> bool
    ensures { result ≡ is_space_or_tab b }
{
    b == b' ' || b == b'\t'
}

// Whether only spaces and tabs lie between the end of these bytes and the CR, LF or start before it, where `was` says so of their start.
fn is_blank(bytes: &[u8], was: bool) -> bool
    ensures { (before : List ℕ) → was ≡ blank_line (reverse before) → result ≡ blank_line (reverse (before ++ bytes.now)) }
{
    match bytes.iter().rev().find(|b| !is_space_or_tab(**b)) {
        Some(b) => is_line_end(*b),
        None => was,
    }
}

// A place of a source, and what is known of its line. The source's earlier bytes are kept, since a line is looked back over. That a test of the line leaves the place
// as it is (`Stays`) stands in each contract: a fact of before and behind is none that an invariant could hold.
#[derive(Clone, Copy, Debug)]
pub(crate) struct Spot<'s> {
    pub(crate) source: &'s [u8],
    pub(crate) at: usize,
    // a place that is not behind it, and whether only spaces and tabs lie between that and the CR, LF or start before it
    seen: usize,
    blank: bool,
    ghost order: { seen ≤ at },
    ghost known: { blank ≡ blank_line (reverse (take seen source.now)) },
}

impl<'s> Spot<'s> {
    ghost use Rattle.finders.specs.Spots.{behind, ahead, Stays};

    // A place of which nothing is known but that the start is at the front of its line.
    pub(crate) fn new(source: &'s [u8], at: usize) -> Spot<'s>
        ensures source { result.source.now ≡ source.now }
        ensures at { result.at ≡ at }
    {
        Spot {
            source,
            at,
            seen: 0,
            blank: true,
        }
    }

    // The bytes from the place on.
    pub(crate) fn ahead(&self) -> &'s [u8]
        ensures value { result.now ≡ ahead self.now }
    {
        after(self.source, self.at)
    }

    // Goes `n` bytes on, which is the one step that a finder makes.
    pub(crate) fn advance(&mut self, n: usize)
        requires { self.old.at + n ≤ length self.old.source.now }
        ensures source { self.new.source.now ≡ self.old.source.now }
        ensures at { self.new.at ≡ self.old.at + n }
    {
        self.at += n;
    }

    // Whether only spaces and tabs lie between the place and the CR, LF or start before it. Each byte is looked at once at most.
    pub(crate) fn is_line_start(&mut self) -> bool
        ensures value { result ≡ blank_line (behind self.old) }
        ensures stays { Stays self.old self.new }
    {
        self.blank = is_blank(after(until(self.source, self.at), self.seen), self.blank);
        self.seen = self.at;
        self.blank
    }
}
