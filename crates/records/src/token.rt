// Tokens that borrow from the template.
ghost use Rattle.std.specs.Prelude.{◌≡◌, true, false, length, Ok, Err};
ghost use Rattle.records.specs.Faults.{bad_range, told};
ghost use Rattle.records.specs.Taken.{is_good, Good};
ghost use Rattle.records.specs.Tokens.{shown, token_of, record_token};

use super::fault::RecordFault;
use super::range::is_good;
use pieces::{Kind, Operator, Piece};

// A piece with its text.
#[derive(Clone, Copy, Debug, PartialEq, Eq)]
pub enum Token<'t> {
    Text(&'t [u8]),
    RawText(&'t [u8]),
    VariableStart,
    VariableEnd,
    BlockStart,
    BlockEnd,
    Ident(&'t [u8]),
    // a string without a backslash
    Str(&'t [u8]),
    // a string that is still to be decoded
    String(&'t [u8]),
    // an integer below 2^64, by the record's value
    Int(Option<u64>),
    // an integer from 2^64 on
    Big(&'t [u8]),
    Float(&'t [u8]),
    Operator(Operator),
    White(&'t [u8]),
    Comment(&'t [u8]),
    LineComment(&'t [u8]),
    RawOpen(&'t [u8]),
    RawClose(&'t [u8]),
    Cut(&'t [u8]),
}

// The token of a kind with these bytes and this value; no `From`, since it takes all three.
fn of_kind(kind: Kind, text: &[u8], value: Option<u64>) -> Token<'_>
    ensures { shown result ≡ token_of kind text.now value }
{
    match kind {
        Kind::Text => Token::Text(text),
        Kind::RawText => Token::RawText(text),
        Kind::VariableStart => Token::VariableStart,
        Kind::VariableEnd => Token::VariableEnd,
        Kind::BlockStart => Token::BlockStart,
        Kind::BlockEnd => Token::BlockEnd,
        Kind::Ident => Token::Ident(text),
        Kind::Str => Token::Str(text),
        Kind::String => Token::String(text),
        Kind::Int => Token::Int(value),
        Kind::Big => Token::Big(text),
        Kind::Float => Token::Float(text),
        Kind::Operator(operator) => Token::Operator(operator),
        Kind::White => Token::White(text),
        Kind::Comment => Token::Comment(text),
        Kind::LineComment => Token::LineComment(text),
        Kind::RawOpen => Token::RawOpen(text),
        Kind::RawClose => Token::RawClose(text),
        Kind::Cut => Token::Cut(text),
    }
}

impl<'t> Token<'t> {
    // The token of a record of a template; refused where a range of the record is bad.
    pub fn new(template: &'t [u8], piece: Piece) -> Result<Token<'t>, RecordFault>
        ensures value { elim result [ Ok t ↦ (is_good (length template.now) piece ≡ true) × (shown t ≡ record_token template.now piece) | Err f ↦ (is_good (length template.now) piece ≡ false) × (told f ≡ bad_range) ] }
        ensures words { elim result [ Ok t ↦ Good (length template.now) piece | Err f ↦ (Good (length template.now) piece → ⊥) ] }
    {
        if !is_good(template.len(), piece) {
            return Err(RecordFault::BadRange);
        }
        let text = &template[piece.text.start as usize..piece.text.end as usize];
        Ok(of_kind(piece.kind, text, piece.value))
    }
}
