// Searching bytes: every function is total, and its answer is what specs/Search.antt defines.

#![tactic(auto)]

ghost use Rattle.std.specs.Prelude.{◌≡◌, ℕ, ◌+◌, ◌-◌, ◌<◌, ◌≤◌, min, true, List, [], ◌∷◌, ◌++◌, length, take, drop, Decides, IfSome};
ghost use Rattle.memchr.specs.Find.{FindsNeedle};
ghost use Rattle.byte_search.specs.Search.{stands_at, first_in, distance_to, First, Holds, HoldsAny, Stands};

use memchr::{memchr_iter, memmem};

// The bytes from `i` on: none where `i` is past the end.
pub fn after(s: &[u8], i: usize) -> &[u8]
    ensures value { result.now ≡ drop i s.now }
    ensures len { length result.now ≡ length s.now - i }
{
    &s[i.min(s.len())..]
}

// The first `i` bytes: all where `i` is past the end.
pub fn until(s: &[u8], i: usize) -> &[u8]
    ensures value { result.now ≡ take i s.now }
    ensures len { length result.now ≡ min i (length s.now) }
{
    &s[..i.min(s.len())]
}

// Each search says beside what it finds that this lies in the haystack: callers' arithmetic does not read that off its value.

// Whether the first bytes differ.
fn differ_at_once(haystack: &[u8], needle: &[u8]) -> bool
    ensures { result ≡ true → (rest : List ℕ) → haystack.now ≡ needle.now ++ rest → ⊥ }
{
    match (haystack, needle) {
        ([b, ..], [first, ..]) => b != first,
        _ => false,
    }
}

// Whether `haystack` begins with `needle`. Mostly the first byte decides, so it is looked at before the library is asked.
#[inline(always)]
pub fn starts_with_bytes(haystack: &[u8], needle: &[u8]) -> bool
    ensures value { result ≡ stands_at needle.now haystack.now }
    ensures front { Decides result ((rest : List ℕ) × (haystack.now ≡ needle.now ++ rest)) }
{
    if differ_at_once(haystack, needle) {
        return false;
    }
    haystack.starts_with(needle)
}

// Whether one of `needles` is one of the chunk's bytes.
fn chunk_has_any(chunk: &[u8; 32], needles: &[u8]) -> bool
    ensures { Decides result ((k : ℕ) × HoldsAny needles.now chunk.now k) }
{
    needles.iter().any(|n| chunk.contains(n))
}

// How many bytes lie in the chunks at the front that have none of `needles`.
fn clear_chunks(haystack: &[u8], needles: &[u8]) -> usize
    ensures within { result ≤ length haystack.now }
    ensures clear { (k : ℕ) → k < result → HoldsAny needles.now haystack.now k → ⊥ }
    ensures most { result + 32 ≤ length haystack.now → (k : ℕ) × (result ≤ k) × (k < result + 32) × HoldsAny needles.now haystack.now k }
{
    let (chunks, _) = haystack.as_chunks::<32>();
    let clear = chunks
        .iter()
        .position(|chunk| chunk_has_any(chunk, needles));
    clear.unwrap_or(chunks.len()) * 32
}

// The first place whose byte is one of `needles`. A `position` of the bytes alone was tried: of five needles in 1 MiB without them it takes 2.0 ms, and with the chunks of 32
// before it, which are the original's, 0.3 ms; slower than those is no search for this project.
fn position_any(haystack: &[u8], needles: &[u8]) -> Option<usize>
    ensures value { result ≡ first_in needles.now haystack.now }
    ensures first { First (HoldsAny needles.now haystack.now) result }
    ensures within { IfSome result (λ d. d < length haystack.now) }
{
    let clear = clear_chunks(haystack, needles);
    let behind = after(haystack, clear)
        .iter()
        .position(|b| needles.contains(b))?;
    Some(clear + behind)
}

// The first place whose byte is one of `needles`. The array is the original's; the search takes a slice, so that it is proved and compiled once for every number of needles.
pub fn memchr_any<const N: usize>(haystack: &[u8], needles: [u8; N]) -> Option<usize>
    ensures value { result ≡ first_in needles.entry haystack.now }
    ensures first { First (HoldsAny needles.entry haystack.now) result }
    ensures within { IfSome result (λ d. d < length haystack.now) }
{
    position_any(haystack, &needles)
}

// How many bytes `memchr` looks at one by one before it asks the kit. Where the byte stands next again and again, the processor guesses so and does not wait for the vectors.
// At irregular distances such a guess may be wrong: with 8 most searches take a quarter more time than with 4.
const NEXT: usize = 4;

// The first place whose byte is `needle`. The kit's iterator looks at the next 32 bytes first, where its `memchr` takes 64.
pub fn memchr(haystack: &[u8], needle: u8) -> Option<usize>
    ensures value { result ≡ first_in (needle ∷ []) haystack.now }
    ensures first { First (Holds needle haystack.now) result }
    ensures within { IfSome result (λ d. d < length haystack.now) }
{
    if let Some(at) = until(haystack, NEXT).iter().position(|b| *b == needle) {
        return Some(at);
    }
    memchr_iter(needle, haystack).next()
}

// Whether `behind` begins with `needle`. `memstr` has found the first byte there, so that the library is asked at once.
#[inline(always)]
fn stands_here(behind: &[u8], needle: &[u8]) -> bool
    ensures { result ≡ stands_at needle.now behind.now }
{
    behind.starts_with(needle)
}

// The first place at which `needle` stands, by the kit's search. A call of its own: written out inside `memstr` it takes the registers of the loop before it.
#[inline(never)]
fn far(haystack: &[u8], needle: &[u8]) -> Option<usize>
    ensures { FindsNeedle haystack.now needle.now 0 result }
{
    memmem::find(haystack, needle)
}

// How many places that hold a needle's first byte `memstr` tries by itself. To build the kit's searcher takes about 100 ns, so a needle that stands near is found without one, and
// what the searcher costs is small beside as many tries; behind them the kit's search takes over, whose time is linear: tries alone would take the product of both lengths on a
// haystack full of the first byte.
const TRIES: usize = 64;

// The first place at which `needle` stands.
pub fn memstr(haystack: &[u8], needle: &[u8]) -> Option<usize>
    ensures value { result ≡ distance_to needle.now haystack.now }
    ensures first { First (Stands needle.now haystack.now) result }
    ensures within { IfSome result (λ d. d + length needle.now ≤ length haystack.now) }
{
    let [lead, ..] = needle else {
        return Some(0);
    };
    if haystack.len() < needle.len() {
        return None;
    }
    let mut at = 0;
    for _ in 0..TRIES {
        at += memchr(after(haystack, at), *lead)?;
        if stands_here(after(haystack, at), needle) {
            return Some(at);
        }
        at += 1;
    }
    Some(at + far(after(haystack, at), needle)?)
}
