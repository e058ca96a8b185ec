// Refusals.
ghost use Rattle.std.specs.Prelude.{◌≡◌, Some};
ghost use Rattle.syntax.specs.Faults.{told, fault_text};

use super::name::DelimiterName;
use std::error::Error;
use std::fmt;
use utf8::NotUtf8;

// A delimiter of over 16 bytes; one that is not UTF-8; an empty one; an opening that equals an earlier one.
#[derive(Clone, Copy, Debug, PartialEq, Eq)]
pub enum SyntaxFault {
    TooLong(DelimiterName),
    NotUtf8(DelimiterName, NotUtf8),
    Empty(DelimiterName),
    Equal(DelimiterName),
}

impl SyntaxFault {
    // The refusal's number: the rules of this project give each one (docs/RULES.md), whatever the enum's order.
    pub fn number(self) -> u32
        ensures { result ≡ (told self).number }
    {
        match self {
            SyntaxFault::TooLong(_) => 1,
            SyntaxFault::NotUtf8(_, _) => 2,
            SyntaxFault::Empty(_) => 3,
            SyntaxFault::Equal(_) => 4,
        }
    }

    // Which delimiter is refused.
    pub fn which(self) -> DelimiterName
        ensures { result ≡ (told self).name }
    {
        match self {
            SyntaxFault::TooLong(name)
            | SyntaxFault::NotUtf8(name, _)
            | SyntaxFault::Empty(name)
            | SyntaxFault::Equal(name) => name,
        }
    }

    // The byte at which it is refused, where it is one.
    pub fn byte(self) -> Option<usize>
        ensures { result ≡ (told self).place }
    {
        match self {
            SyntaxFault::NotUtf8(_, fault) => Some(fault.byte),
            _ => None,
        }
    }
}

// Shown by the delimiter's name and what is wrong with it; by hand, since a derive would state no text.
impl fmt::Display for SyntaxFault {
    ghost output = { λ f. Some (fault_text f) };

    fn fmt<W: fmt::Write>(&self, f: &mut fmt::Formatter<W>) -> fmt::Result {
        match self {
            SyntaxFault::TooLong(name) => write!(f, "{name} has over 16 bytes"),
            SyntaxFault::NotUtf8(name, fault) => write!(f, "{name} is {fault}"),
            SyntaxFault::Empty(name) => write!(f, "{name} is empty"),
            SyntaxFault::Equal(name) => write!(f, "{name} equals an earlier opening"),
        }
    }
}

impl Error for SyntaxFault {}
