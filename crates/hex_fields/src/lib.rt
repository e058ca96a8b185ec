// Bytes in hexadecimal, for programs that read and write them.

#![tactic(auto)]

ghost use Rattle.std.specs.Prelude.{◌≡◌, ◌<◌, IfSome, Some};
ghost use Rattle.std.specs.Fmt.{WritesOnOk};
ghost use Rattle.escape.specs.Escapes.{hex_value};
ghost use Rattle.hex_fields.specs.declared.HexError.TheVariants.{NoMemory as unallocated};
ghost use Rattle.hex_fields.specs.Hex.{byte_text, hex_text, byte_of, Read, ReadField};

use std::alloc::{AllocError, AllocFailed, Global};
use std::fmt;
use thiserror::Error;

// Writes the two digits of a byte.
#[tactic(auto, using(std::proofs::lemmas::Fmt::hex_byte))]
fn write_byte<W: fmt::Write>(f: &mut fmt::Formatter<W>, b: u8) -> fmt::Result
    ensures { WritesOnOk W.write_str_gives f.old result (byte_text b) f.new }
{
    write!(f, "{b:02X}")
}

// Bytes to be shown, two digits each and a space between two.
#[derive(Clone, Copy, Debug)]
pub struct Hex<'a>(pub &'a [u8]);

impl fmt::Display for Hex<'_> {
    ghost output = { λ h. Some (hex_text h.0.now) };

    fn fmt<W: fmt::Write>(&self, f: &mut fmt::Formatter<W>) -> fmt::Result {
        if let [first, rest @ ..] = self.0 {
            write_byte(f, *first)?;
            for b in rest {
                f.write_str(" ")?;
                write_byte(f, *b)?;
            }
        }
        Ok(())
    }
}

// Why hexadecimal digits are not read.
#[derive(Clone, Copy, Debug, PartialEq, Eq, Error)]
pub enum HexError {
    // a character that is no digit, or one digit too many
    #[error("not hexadecimal")]
    NotHex,
    #[error("no memory")]
    NoMemory,
}

impl From<AllocError> for HexError {
    ghost from_gives = { λ _ y. y ≡ unallocated };

    fn from(_error: AllocError) -> HexError {
        HexError::NoMemory
    }
}

impl<T: Drop> From<AllocFailed<T>> for HexError {
    ghost from_gives = { λ _ y. y ≡ unallocated };

    fn from(_refused: AllocFailed<T>) -> HexError {
        HexError::NoMemory
    }
}

// The value of a digit.
#[tactic(auto, using(escape::proofs::Steps::hex_digit, escape::proofs::Steps::hex_none))]
fn digit(b: u8) -> Option<u32>
    ensures value { result ≡ hex_value b }
    ensures below { IfSome result (λ d. d < 16) }
{
    char::from(b).to_digit(16)
}

// The byte that two digits write.
fn byte(high: u8, low: u8) -> Option<u8>
    ensures { result ≡ byte_of (hex_value high) (hex_value low) }
{
    Some((digit(high)? * 16 + digit(low)?) as u8)
}

// The bytes that digits write.
#[tactic(auto, using(crate::proofs::Digits::read_even, crate::proofs::Digits::read_odd))]
pub fn from_hex(heap: Global, text: &[u8]) -> Result<Vec<u8>, HexError>
    ensures { Read result text.now }
{
    let (pairs, odd) = text.as_chunks::<2>();
    if !odd.is_empty() {
        return Err(HexError::NotHex);
    }
    let mut bytes = Vec::new(heap);
    for [high, low] in pairs {
        bytes.push(byte(*high, *low).ok_or(HexError::NotHex)?)?;
    }
    Ok(bytes)
}

// The bytes of a field: what its digits write, or none where it is a dash.
#[tactic(auto, using(crate::proofs::Digits::one_byte))]
pub fn field(heap: Global, text: &[u8]) -> Result<Vec<u8>, HexError>
    ensures { ReadField result text.now }
{
    match text {
        [b'-'] => Ok(Vec::new(heap)),
        _ => from_hex(heap, text),
    }
}
