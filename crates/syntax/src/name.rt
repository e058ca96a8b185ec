// The names of the eight delimiters.
ghost use Rattle.std.specs.Prelude.{◌≡◌, ◌<◌, Some};
ghost use Rattle.syntax.specs.Names.{index_of, name_of, opener};

use finder::StartMarker;
use std::fmt;

// One of the eight delimiters.
#[derive(Clone, Copy, Debug, PartialEq, Eq)]
pub enum DelimiterName {
    BlockStart,
    BlockEnd,
    VariableStart,
    VariableEnd,
    CommentStart,
    CommentEnd,
    LineStatementPrefix,
    LineCommentPrefix,
}

impl DelimiterName {
    // The eight names, in the order of the table of delimiters.
    pub const ALL: [DelimiterName; 8] = [
        DelimiterName::BlockStart,
        DelimiterName::BlockEnd,
        DelimiterName::VariableStart,
        DelimiterName::VariableEnd,
        DelimiterName::CommentStart,
        DelimiterName::CommentEnd,
        DelimiterName::LineStatementPrefix,
        DelimiterName::LineCommentPrefix,
    ];

    // The place in the table of delimiters.
    pub fn index(self) -> usize
        ensures value { result ≡ index_of self }
        ensures within { result < 8 }
    {
        self as usize
    }

    // The delimiter's name.
    pub fn name(self) -> &'static str
        ensures { result.now ≡ name_of self }
    {
        match self {
            DelimiterName::BlockStart => "block_start",
            DelimiterName::BlockEnd => "block_end",
            DelimiterName::VariableStart => "variable_start",
            DelimiterName::VariableEnd => "variable_end",
            DelimiterName::CommentStart => "comment_start",
            DelimiterName::CommentEnd => "comment_end",
            DelimiterName::LineStatementPrefix => "line_statement_prefix",
            DelimiterName::LineCommentPrefix => "line_comment_prefix",
        }
    }
}

// A delimiter is written by its name.
impl fmt::Display for DelimiterName {
    ghost output = { λ n. Some (name_of n) };

    fn fmt<W: fmt::Write>(&self, f: &mut fmt::Formatter<W>) -> fmt::Result {
        f.write_str(self.name())
    }
}

// The delimiter that opens what the marker names.
impl From<StartMarker> for DelimiterName {
    ghost from_gives = { λ m n. n ≡ opener m };

    fn from(marker: StartMarker) -> DelimiterName {
        match marker {
            StartMarker::Variable => DelimiterName::VariableStart,
            StartMarker::Block => DelimiterName::BlockStart,
            StartMarker::Comment => DelimiterName::CommentStart,
            StartMarker::LineStatement => DelimiterName::LineStatementPrefix,
            StartMarker::LineComment => DelimiterName::LineCommentPrefix,
        }
    }
}
