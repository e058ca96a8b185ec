// UTF-8 on bytes: the character at a place, and whether all of the bytes are well formed.

#![tactic(auto)]

ghost use Rattle.std.specs.Prelude.{◌≡◌, ◌+◌, ◌<◌, ◌≤◌, true, length, take, drop, max, Some, Err, Decides, IfOk, IfErr, IsUtf8};
ghost use Rattle.std.proofs.Math.Utf8.{scalar};
ghost use Rattle.utf8.specs.Utf8.{char_at, checked, Encoded, Agrees, Second, not_utf8_text};

use simdutf8::compat::from_utf8;
use std::error::Error;
use std::fmt;

// A character, and how many bytes it has.
#[derive(Clone, Copy, Debug, PartialEq, Eq)]
pub struct Char {
    pub code: char,
    pub width: usize,
}

// The first byte at which no well-formed sequence stands.
#[derive(Clone, Copy, Debug, PartialEq, Eq)]
pub struct NotUtf8 {
    pub byte: usize,
}

// By hand, as all refusals are: a derive of `thiserror` would state no text.
impl fmt::Display for NotUtf8 {
    ghost output = { λ e. Some (not_utf8_text e) };

    fn fmt<W: fmt::Write>(&self, f: &mut fmt::Formatter<W>) -> fmt::Result {
        write!(f, "not UTF-8 from byte {} on", self.byte)
    }
}

impl Error for NotUtf8 {}

// Whether `b` goes on with a character: the range of most second bytes, and of every third and fourth.
pub fn is_continuation(b: u8) -> bool
    ensures { Decides result ((128 ≤ b) × (b ≤ 191)) }
{
    matches!(b, 0x80..=0xBF)
}

// Whether `b` may be the second byte of a sequence that `a` leads.
fn second(a: u8, b: u8) -> bool
    ensures { Decides result (Second a b) }
{
    match a {
        0xE0 => matches!(b, 0xA0..=0xBF),
        0xED => matches!(b, 0x80..=0x9F),
        0xF0 => matches!(b, 0x90..=0xBF),
        0xF4 => matches!(b, 0x80..=0x8F),
        _ => is_continuation(b),
    }
}

// The character with this code point.
fn character(code: u32, width: usize) -> Option<Char>
    requires { scalar code ≡ true }
    ensures { result ≡ Some (record { code = code; width = width }) }
{
    char::from_u32(code).map(|code| Char { code, width })
}

// The character at the front, or none where no well-formed sequence stands there.
fn first_char(s: &[u8]) -> Option<Char>
    ensures { result ≡ char_at s.now }
{
    let (a, later) = s.split_first()?;
    match (*a, later) {
        (0x00..=0x7F, _) => Some(Char {
            code: char::from(*a),
            width: 1,
        }),
        (0xC2..=0xDF, [b, ..]) if second(*a, *b) => {
            character(u32::from(*a - 0xC0) * 64 + u32::from(*b - 0x80), 2)
        }
        (0xE0..=0xEF, [b, c, ..]) if second(*a, *b) && is_continuation(*c) => character(
            u32::from(*a - 0xE0) * 4096 + u32::from(*b - 0x80) * 64 + u32::from(*c - 0x80),
            3,
        ),
        (0xF0..=0xF4, [b, c, d, ..])
            if second(*a, *b) && is_continuation(*c) && is_continuation(*d) => {
            let high = u32::from(*a - 0xF0) * 262144 + u32::from(*b - 0x80) * 4096;
            character(high + u32::from(*c - 0x80) * 64 + u32::from(*d - 0x80), 4)
        }
        _ => None,
    }
}

// The character at `at`, or none where no well-formed sequence stands there.
pub fn char_at(s: &[u8], at: usize) -> Option<Char>
    ensures value { result ≡ char_at (drop at s.now) }
    ensures encoded { Encoded s.now at result }
{
    first_char(s.get(at..)?)
}

// How many bytes are tested at once: as many as lie before them, but at least `FIRST` and at most `BLOCK`. So a refusal reads at most as much again as lies before its
// byte, or `FIRST` bytes, and `LEAST` more. Fewer than `LEAST` bytes are tested one by one, so the last block takes such a rest with it.
const FIRST: usize = 1_024;

const BLOCK: usize = 16_384;

const LEAST: usize = 64;

// One place back, where a character goes on at this one.
fn back(s: &[u8], at: usize) -> usize
    requires { (0 < at) × (at < length s.now) }
    ensures { (result ≤ at) × (at ≤ result + 1) }
{
    if is_continuation(s[at]) { at - 1 } else { at }
}

// The end of the block at `at`. It cuts no character of a well-formed text, since no character has more than three bytes behind its first.
fn block_end(s: &[u8], at: usize) -> usize
    requires { at < length s.now }
    ensures within { (at < result) × (result ≤ length s.now) }
    ensures by_what_lies_before { result < at + max FIRST at + LEAST }
    ensures at_most { result < at + BLOCK + LEAST }
{
    let len = at.clamp(FIRST, BLOCK);
    if s.len() - at < len + LEAST {
        return s.len();
    }
    back(s, back(s, back(s, at + len)))
}

// A place behind the block at `at`, with all before it well formed, or the first bytes of the text that are not.
fn past_block(s: &[u8], at: usize) -> Result<usize, NotUtf8>
    requires { (at < length s.now) × IsUtf8 (take at s.now) }
    ensures ok { IfOk result (λ end. (at < end) × (end ≤ length s.now) × IsUtf8 (take end s.now)) }
    ensures err { IfErr result (λ e. Agrees s.now (Err e)) }
{
    let end = block_end(s, at);
    let Err(e) = from_utf8(&s[at..end]) else {
        return Ok(end);
    };
    let byte = at + e.valid_up_to();
    // Where the text is not well formed, the block can end inside a character of it.
    match char_at(s, byte) {
        Some(c) => Ok(byte + c.width),
        None => Err(NotUtf8 { byte }),
    }
}

// Whether all of the bytes are well formed, or the first that are not. The kit's `simdutf8` answers as `std`'s `from_utf8` does, and is eight times as fast on text
// that is not ASCII.
pub fn check_utf8(s: &[u8]) -> Result<(), NotUtf8>
    ensures value { result ≡ checked s.now }
    ensures agrees { Agrees s.now result }
{
    let mut at = 0;
    while at < s.len() {
        at = past_block(s, at)?;
    }
    Ok(())
}
