// Decoding a string text: how long it becomes, and its bytes.

#![tactic(auto)]

ghost use Rattle.std.specs.Prelude.{◌≡◌, ◌+◌, ◌≤◌, ◌++◌, length, take, drop, IfOk, Some};
ghost use Rattle.std.proofs.Math.Utf8.{encode, encodes};
ghost use Rattle.decode.specs.Answers.{Decoded, error_text};
ghost use Rattle.decode.specs.declared.DecodeError.TheVariants.{Fault as faulty, NoMemory as unallocated};
ghost use Rattle.decode.specs.Examples.{ExamplesHold};
ghost use Rattle.decode.specs.Decoding.{told, answer_of, unescapes, decode, decoded_len, length_of, length_told, written, overwritten, IsText};

use escape::{DecodeFault, Unescaper};
use finder::NoFinder;
use std::alloc::{AllocError, Global};
use std::error::Error;
use std::fmt;
use stream::Stream;
use utf8::check_utf8;

// How many bytes the characters of the text become.
#[tactic(auto, using(crate::proofs::Sizes::decoded_few))]
fn unescaped_len(text: &[u8]) -> Result<usize, DecodeFault>
    ensures value { told result ≡ length_told (answer_of (unescapes text.now)) }
    ensures result { result ≡ length_of (unescapes text.now) }
    ensures within { IfOk result (λ n. n ≤ length text.now) }
{
    let mut chars = Unescaper::new(text);
    // A chain of `from_fn` with `sum` was tried: the library says nothing of a sum into a `Result`, so the length is not known.
    let mut len = 0;
    while let Some(c) = chars.next(&NoFinder)? {
        len += c.len_utf8();
    }
    Ok(len)
}

// How many bytes the text becomes.
pub fn decoded_len(text: &[u8]) -> Result<usize, DecodeFault>
    ensures value { told result ≡ length_told (decode text.now) }
    ensures result { result ≡ decoded_len text.now }
    ensures within { IfOk result (λ n. n ≤ length text.now) }
{
    check_utf8(text)?;
    unescaped_len(text)
}

// Writes the UTF-8 of a character at a place, and tells how many bytes it has.
fn put(dst: &mut [u8], at: usize, c: char) -> usize
    requires { at + length (encode c) ≤ length dst.old }
    ensures value { result ≡ length (encode c) }
    ensures after { dst.new ≡ take at dst.old ++ (encode c ++ drop (at + length (encode c)) dst.old) }
{
    let mut buf = [0; 4];
    let bytes = c.encode_utf8(&mut buf).as_bytes();
    dst[at..at + bytes.len()].copy_from_slice(bytes);
    bytes.len()
}

// Writes what the characters of the text become, for which there is room.
fn write_unescaped(text: &[u8], dst: &mut [u8])
    requires { length (encodes (unescapes text.now).points) ≤ length dst.old }
    ensures { dst.new ≡ encodes (unescapes text.now).points ++ drop (length (encodes (unescapes text.now).points)) dst.old }
{
    let mut chars = Unescaper::new(text);
    // The place is counted by hand: what is left of a `&mut` would have to be handed back through each borrow, which is no plainer.
    let mut at = 0;
    while let Ok(Some(c)) = chars.next(&NoFinder) {
        at += put(dst, at, c);
    }
}

// Writes the bytes that the text means to the front of the destination, and tells how many they are. A refusal leaves the destination as it is.
#[tactic(auto, using(crate::proofs::Decoded::decoded_text, crate::proofs::Evaluated::examples_hold))]
pub fn decode_into(text: &[u8], dst: &mut [u8]) -> Result<usize, DecodeFault>
    ensures value { told result ≡ written (decode text.now) (length dst.old) }
    ensures after { dst.new ≡ overwritten (decode text.now) dst.old }
    ensures text { IsText (decode text.now) text.now }
    ensures examples { ExamplesHold }
{
    let needed = decoded_len(text)?;
    if dst.len() < needed {
        return Err(DecodeFault::TooShort(needed));
    }
    write_unescaped(text, dst);
    Ok(needed)
}

// Why a text could not be decoded into memory of its own.
#[derive(Clone, Copy, Debug, PartialEq, Eq)]
pub enum DecodeError {
    // the text is refused
    Fault(DecodeFault),
    // there is no memory for the bytes
    NoMemory,
}

// Shown as the fault, or that there is no memory; by hand, since a derive would state no text.
impl fmt::Display for DecodeError {
    ghost output = { λ e. Some (error_text e) };

    fn fmt<W: fmt::Write>(&self, f: &mut fmt::Formatter<W>) -> fmt::Result {
        match self {
            DecodeError::Fault(fault) => write!(f, "{fault}"),
            DecodeError::NoMemory => f.write_str("no memory"),
        }
    }
}

impl Error for DecodeError {}

impl From<DecodeFault> for DecodeError {
    ghost from_gives = { λ x y. y ≡ faulty x };

    fn from(fault: DecodeFault) -> DecodeError {
        DecodeError::Fault(fault)
    }
}

impl From<AllocError> for DecodeError {
    ghost from_gives = { λ _ y. y ≡ unallocated };

    fn from(_error: AllocError) -> DecodeError {
        DecodeError::NoMemory
    }
}

// The bytes that the text means, in memory of their own.
pub fn decode_to_vec(heap: Global, text: &[u8]) -> Result<Vec<u8>, DecodeError>
    ensures { Decoded result (decode text.now) }
{
    let len = decoded_len(text)?;
    let mut bytes = vec![in heap; 0; len]?;
    write_unescaped(text, bytes.as_mut_slice());
    Ok(bytes)
}
