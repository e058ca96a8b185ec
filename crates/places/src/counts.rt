// Counting bytes, 32 at a time: a place is behind all the bytes of a piece, and a piece of text may be long.
ghost use Rattle.std.specs.Prelude.{◌≡◌, ℕ, ◌+◌, min, Bool, true, count_by};
ghost use Rattle.places.specs.Places.{is_lf, is_lead, since_lf, is_single, OneEach};

use memchr::memrchr;
use std::simd::prelude::*;

// What is counted: a set of bytes.
pub(crate) trait Counted {
    ghost has: { ℕ → Bool };

    // Whether the byte is one of them.
    fn is(b: u8) -> bool
        ensures { result ≡ has b };

    // How many bytes of a chunk are.
    fn in_chunk(chunk: &[u8; 32]) -> u32
        ensures { result ≡ count_by has chunk.now };
}

// LF.
pub(crate) struct Lf;

impl Counted for Lf {
    ghost has = { is_lf };

    fn is(b: u8) -> bool {
        b == b'\n'
    }

    fn in_chunk(chunk: &[u8; 32]) -> u32 {
        let bytes = u8x32::from_array(*chunk);
        bytes.simd_eq(u8x32::splat(b'\n')).to_bitmask().count_ones()
    }
}

// The first bytes of characters: those below 80 hex, and those from C0 on.
pub(crate) struct Lead;

impl Counted for Lead {
    ghost has = { is_lead };

    fn is(b: u8) -> bool {
        !matches!(b, 0x80..=0xBF)
    }

    fn in_chunk(chunk: &[u8; 32]) -> u32 {
        let bytes = u8x32::from_array(*chunk);
        let single = bytes.simd_lt(u8x32::splat(0x80)).to_bitmask().count_ones();
        let first = bytes.simd_ge(u8x32::splat(0xC0)).to_bitmask().count_ones();
        single + first
    }
}

// How many of a few bytes are.
fn count_each<C: Counted>(bytes: &[u8]) -> usize
    ensures { result ≡ count_by C.Counted.has bytes.now }
{
    bytes.iter().filter(|b| C::is(**b)).count()
}

// How many of the bytes are.
pub(crate) fn count<C: Counted>(bytes: &[u8]) -> usize
    ensures { result ≡ count_by C.Counted.has bytes.now }
{
    let (chunks, rest) = bytes.as_chunks::<32>();
    let mut counted = 0;
    for chunk in chunks {
        counted += C::in_chunk(chunk) as usize;
    }
    counted + count_each::<C>(rest)
}

// Whether the byte is a character, and not LF.
fn is_single(b: u8) -> bool
    ensures { result ≡ is_single b }
{
    b < 0x80 && b != b'\n'
}

// Whether each of the bytes is.
pub(crate) fn is_one_each(bytes: &[u8]) -> bool
    ensures { result ≡ true → OneEach bytes.now }
{
    bytes.iter().all(|b| is_single(*b))
}

// The bytes behind the last LF; all, where there is none.
pub(crate) fn since_lf(bytes: &[u8]) -> &[u8]
    ensures { result.now ≡ since_lf bytes.now }
{
    match memrchr(b'\n', bytes) {
        Some(last) => &bytes[last + 1..],
        None => bytes,
    }
}

// A sum, at most the highest of its type.
pub(crate) fn add_u16(n: u16, more: usize) -> u16
    ensures { result ≡ min (n + more) 65535 }
{
    match u16::try_from(more) {
        Ok(more) => n.saturating_add(more),
        Err(_) => u16::MAX,
    }
}

// The same of offsets.
pub(crate) fn add_u32(n: u32, more: usize) -> u32
    ensures { result ≡ min (n + more) 4294967295 }
{
    match u32::try_from(more) {
        Ok(more) => n.saturating_add(more),
        Err(_) => u32::MAX,
    }
}
