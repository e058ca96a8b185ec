// Why a reading fails.
ghost use Rattle.std.specs.Prelude.{◌≡◌, Some};
ghost use Rattle.pieces.specs.declared.fault.FaultKind.TheVariants.{Escape as escaped};
ghost use Rattle.pieces.specs.Faults.{number_of, fault_name, fault_text, backslash_of};

use escape::DecodeFault;
use places::Span;
use std::error::Error;
use std::fmt;

// What is wrong.
#[derive(Clone, Copy, Debug, PartialEq, Eq)]
pub enum FaultKind {
    // a comment has no end
    UnendedComment,
    // a raw block has no end
    UnendedRaw,
    // a string has no end
    UnendedString,
    // no token begins here
    NoToken,
    // a number ends in an underscore
    TrailingUnderscore,
    // an exponent has no digit
    NoExponent,
    // an integer has no digit, one that is not of its base, or is at least 2^128
    BadInteger,
    // bytes follow the end of an expression
    AfterExpression,
    // the decoder refuses a string's text
    Escape(DecodeFault),
}

// What is wrong, and where.
#[derive(Clone, Copy, Debug, PartialEq, Eq)]
pub struct ReadFault {
    pub kind: FaultKind,
    pub span: Span,
}

// Shown by its name and where it begins; by hand, since a derive would state no text.
impl fmt::Display for ReadFault {
    ghost output = { λ f. Some (fault_text f) };

    fn fmt<W: fmt::Write>(&self, f: &mut fmt::Formatter<W>) -> fmt::Result {
        let name = self.kind.name();
        let line = self.span.start.line;
        let column = self.span.start.column;
        write!(f, "{name} at line {line}, column {column}")
    }
}

impl Error for ReadFault {}

impl From<DecodeFault> for FaultKind {
    ghost from_gives = { λ x y. y ≡ escaped x };

    fn from(fault: DecodeFault) -> FaultKind {
        Self::Escape(fault)
    }
}

impl FaultKind {
    // The fault's number: the rules of this project give each one (docs/RULES.md), whatever the enum's order.
    pub fn number(self) -> u32
        ensures { result ≡ number_of self }
    {
        match self {
            FaultKind::UnendedComment => 7,
            FaultKind::UnendedRaw => 8,
            FaultKind::UnendedString => 9,
            FaultKind::NoToken => 10,
            FaultKind::TrailingUnderscore => 11,
            FaultKind::NoExponent => 12,
            FaultKind::BadInteger => 13,
            FaultKind::AfterExpression => 14,
            FaultKind::Escape(fault) => fault.number(),
        }
    }

    // The fault's name.
    pub fn name(self) -> &'static str
        ensures { result.now ≡ fault_name self }
    {
        match self {
            FaultKind::UnendedComment => "comment without end",
            FaultKind::UnendedRaw => "raw block without end",
            FaultKind::UnendedString => "string without end",
            FaultKind::NoToken => "no token begins here",
            FaultKind::TrailingUnderscore => "number ends in an underscore",
            FaultKind::NoExponent => "exponent without digit",
            FaultKind::BadInteger => "bad integer",
            FaultKind::AfterExpression => "bytes behind the end of the expression",
            FaultKind::Escape(fault) => fault.name(),
        }
    }

    // Where in the string's text the decoder's fault lies, if it is one.
    pub fn backslash(self) -> Option<usize>
        ensures { result ≡ backslash_of self }
    {
        match self {
            FaultKind::Escape(fault) => Some(fault.place()),
            _ => None,
        }
    }
}
