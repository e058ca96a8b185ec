// Finders: what opens a tag, and where it next stands.

#![tactic(auto)]

ghost use Rattle.std.specs.Prelude.{◌≡◌, List, [], Some};
ghost use Rattle.finder.specs.Names.{marker_name};
ghost use Rattle.finder.specs.Finding.{Opening, is_line_end, found_from, Finds, Inside};

use std::fmt;

// What an opening opens.
#[derive(Clone, Copy, Debug, PartialEq, Eq)]
pub enum StartMarker {
    Variable,
    Block,
    Comment,
    LineStatement,
    LineComment,
}

impl StartMarker {
    // The five markers, in the order in which openings are compared and entered.
    pub const ALL: [StartMarker; 5] = [
        StartMarker::Variable,
        StartMarker::Block,
        StartMarker::Comment,
        StartMarker::LineStatement,
        StartMarker::LineComment,
    ];

    // The marker's name.
    pub fn name(self) -> &'static str
        ensures { result.now ≡ marker_name self }
    {
        match self {
            StartMarker::Variable => "variable",
            StartMarker::Block => "block",
            StartMarker::Comment => "comment",
            StartMarker::LineStatement => "line-statement",
            StartMarker::LineComment => "line-comment",
        }
    }
}

// A marker is written as its name.
impl fmt::Display for StartMarker {
    ghost output = { λ m. Some (marker_name m) };

    fn fmt<W: fmt::Write>(&self, f: &mut fmt::Formatter<W>) -> fmt::Result {
        f.write_str(self.name())
    }
}

// Whether `b` is CR or LF.
pub fn is_line_end(b: u8) -> bool
    ensures { result ≡ is_line_end b }
{
    matches!(b, b'\r' | b'\n')
}

// A finder means the openings that it looks for.
pub trait Finder {
    ghost openings: { Self → List Opening };

    // The first place from the offset on where an opening qualifies, and the longest that does there: how far it is, what it opens, and its length. Source and offset come apart: a struct of both would be made for each call, and a cursor carries settings, which a finder does not take.
    fn find(&self, source: &[u8], offset: usize) -> Option<(usize, StartMarker, usize)>
        ensures value { result ≡ found_from (openings self.now) source.now offset }
        ensures finds { Finds (openings self.now) source.now offset result }
        ensures inside { Inside source.now offset result };
}

// The finder that looks for nothing, for streams that ask none.
#[derive(Clone, Copy, Debug, Default)]
pub struct NoFinder;

impl Finder for NoFinder {
    ghost openings = { λ _. [] };

    fn find(&self, _source: &[u8], _offset: usize) -> Option<(usize, StartMarker, usize)> {
        None
    }
}
