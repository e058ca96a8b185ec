// The words that the rules of reading and the code share.

#![tactic(auto)]

mod cursor;
mod whitespace;

pub use cursor::Cursor;
use finder::StartMarker;
use pieces::{FaultKind, Kind};
pub use whitespace::Whitespace;

// What a tag was opened by, and so what ends it. An expression starts inside a variable.
#[derive(Clone, Copy, Debug, PartialEq, Eq)]
pub enum BlockSentinel {
    Variable,
    Block,
    LineStatement,
    Expression,
}

// Where a reading stands: in text, inside a tag at a balance of brackets, or behind the end of an expression.
#[derive(Clone, Copy, Debug, PartialEq, Eq)]
pub enum LexerState {
    Template,
    Inside(BlockSentinel, i64),
    Over,
}

// What waits in text.
#[derive(Clone, Copy, Debug, PartialEq, Eq)]
pub enum Pending {
    Nothing,
    // white space is to be passed over
    Trim,
    // so many bytes of a line end are to be passed over
    Tail(usize),
    // an opening, which so many bytes of white space stand before, and which has so many bytes with its sign
    Marker(StartMarker, usize, usize),
    // the body of a raw block whose tag has this sign at its end
    RawBody(Whitespace),
    // the tag that closes a raw block: its bytes, and the sign at its end
    RawClose(usize, Whitespace),
}

// A tag that closes a raw block: its bytes, the sign behind its start, and the sign before its end.
#[derive(Clone, Copy, Debug, PartialEq, Eq)]
pub struct EndRaw {
    pub len: usize,
    pub start_sign: Whitespace,
    pub end_sign: Whitespace,
}

// Which part of a number is read.
#[derive(Clone, Copy, Debug, PartialEq, Eq)]
pub enum NumberState {
    RadixInteger,
    Integer,
    Fraction,
    // behind `e` or `E`
    Exponent,
    // behind the sign of an exponent
    ExponentSign,
    // in the digits of an exponent
    ExponentDigits,
}

// A piece that comes next: its kind, its bytes, which of them are its text, its value, and where the reading stands behind it.
#[derive(Clone, Copy, Debug, PartialEq, Eq)]
pub struct Step {
    pub kind: Kind,
    pub len: usize,
    pub from: usize,
    pub to: usize,
    // beside the kind, as in a piece
    pub value: Option<u64>,
    pub state: LexerState,
    pub pending: Pending,
}

// What is wrong, and how many bytes ahead that is seen.
#[derive(Clone, Copy, Debug, PartialEq, Eq)]
pub struct Fault {
    pub kind: FaultKind,
    pub distance: usize,
}

// What the rules say of the bytes ahead: a piece, that none are left, or what is wrong.
pub type Verdict = Result<Option<Step>, Fault>;

impl Step {
    ghost use Rattle.std.specs.Prelude.{◌≡◌, Ok, Some};
    ghost use Rattle.rules.specs.State.{plain};

    // A piece that is all text, with no value.
    pub fn plain(kind: Kind, len: usize, state: LexerState, pending: Pending) -> Step
        ensures { Ok (Some result) ≡ plain kind len state pending }
    {
        Step {
            kind,
            len,
            from: 0,
            to: len,
            value: None,
            state,
            pending,
        }
    }
}
