// What a piece is.
ghost use Rattle.std.specs.Prelude.{◌≡◌, Some};
ghost use Rattle.pieces.specs.Kinds.{operator_text, kind_name, is_gap};

use std::fmt;

// An operator or a bracket.
#[derive(Clone, Copy, Debug, PartialEq, Eq)]
pub enum Operator {
    Plus,
    Minus,
    Mul,
    Div,
    FloorDiv,
    Pow,
    Mod,
    Dot,
    Comma,
    Colon,
    Tilde,
    Assign,
    Pipe,
    Eq,
    Ne,
    Gt,
    Gte,
    Lt,
    Lte,
    BracketOpen,
    BracketClose,
    ParenOpen,
    ParenClose,
    BraceOpen,
    BraceClose,
}

impl Operator {
    // The operator's own bytes.
    pub fn text(self) -> &'static str
        ensures { result.now ≡ operator_text self }
    {
        match self {
            Operator::Plus => "+",
            Operator::Minus => "-",
            Operator::Mul => "*",
            Operator::Div => "/",
            Operator::FloorDiv => "//",
            Operator::Pow => "**",
            Operator::Mod => "%",
            Operator::Dot => ".",
            Operator::Comma => ",",
            Operator::Colon => ":",
            Operator::Tilde => "~",
            Operator::Assign => "=",
            Operator::Pipe => "|",
            Operator::Eq => "==",
            Operator::Ne => "!=",
            Operator::Gt => ">",
            Operator::Gte => ">=",
            Operator::Lt => "<",
            Operator::Lte => "<=",
            Operator::BracketOpen => "[",
            Operator::BracketClose => "]",
            Operator::ParenOpen => "(",
            Operator::ParenClose => ")",
            Operator::BraceOpen => "{",
            Operator::BraceClose => "}",
        }
    }
}

// Shown by its own bytes.
impl fmt::Display for Operator {
    ghost output = { λ o. Some (operator_text o) };

    fn fmt<W: fmt::Write>(&self, f: &mut fmt::Formatter<W>) -> fmt::Result {
        f.write_str(self.text())
    }
}

// What a piece is: a token, or from White on a gap.
#[derive(Clone, Copy, Debug, PartialEq, Eq)]
pub enum Kind {
    Text,
    RawText,
    VariableStart,
    VariableEnd,
    BlockStart,
    BlockEnd,
    Ident,
    // a string without a backslash
    Str,
    // a string with one, which has to be decoded
    String,
    // an integer below 2^64
    Int,
    // an integer from 2^64 on
    Big,
    Float,
    Operator(Operator),
    White,
    Comment,
    LineComment,
    RawOpen,
    RawClose,
    Cut,
}

impl Kind {
    // The kind's name; an operator is named by its own bytes.
    pub fn name(self) -> &'static str
        ensures { result.now ≡ kind_name self }
    {
        match self {
            Kind::Text => "text",
            Kind::RawText => "raw-text",
            Kind::VariableStart => "var-start",
            Kind::VariableEnd => "var-end",
            Kind::BlockStart => "block-start",
            Kind::BlockEnd => "block-end",
            Kind::Ident => "ident",
            Kind::Str => "str",
            Kind::String => "string",
            Kind::Int => "int",
            Kind::Big => "big",
            Kind::Float => "float",
            Kind::Operator(operator) => operator.text(),
            Kind::White => "white",
            Kind::Comment => "comment",
            Kind::LineComment => "line-comment",
            Kind::RawOpen => "raw-open",
            Kind::RawClose => "raw-close",
            Kind::Cut => "cut",
        }
    }

    // Whether a piece of this kind is a gap.
    pub fn is_gap(self) -> bool
        ensures { result ≡ is_gap self }
    {
        matches!(
            self,
            Kind::White
                | Kind::Comment
                | Kind::LineComment
                | Kind::RawOpen
                | Kind::RawClose
                | Kind::Cut
        )
    }
}

// Shown by its name.
impl fmt::Display for Kind {
    ghost output = { λ k. Some (kind_name k) };

    fn fmt<W: fmt::Write>(&self, f: &mut fmt::Formatter<W>) -> fmt::Result {
        f.write_str(self.name())
    }
}
