// Strips: the white space that is left out of text before an opening.
// Each length says for itself that it lies in its text: callers' arithmetic does not read that off its value.

#![tactic(auto)]

ghost use Rattle.std.specs.Prelude.{◌≡◌, ◌+◌, ◌≤◌, [], length, take, Decides};
ghost use Rattle.spaces.specs.Runs.{white_run, all_pass, kept, Longest};
ghost use Rattle.spaces.specs.Spaces.{white_space, in_ranges, in_line};
ghost use Rattle.rules.specs.Bytes.{behind_at, line_before};
ghost use Rattle.rules.specs.Config.{config_of};
ghost use Rattle.rules.specs.Texts.{due, left_over, lead as lead_of};
ghost use Rattle.rules.specs.Cursors.{config_at, behind, ahead};
ghost use Rattle.strips.specs.Lines.{WhiteLine, Trims, Left, left_before};

use byte_search::until;
use finder::{StartMarker, is_line_end};
use rules::{Cursor, Whitespace};
use spaces::{CharSet, InlineWhite, White, run_backward, run_forward};
use syntax::Settings;

// How many bytes of a text are left when the characters of the set at its end are taken off.
fn trim_end_matches<C: CharSet>(text: &[u8], set: &C) -> usize
    ensures value { result ≡ kept (C.CharSet.has set.now) text.now }
    ensures within { result ≤ length text.now }
    ensures least { Trims (C.CharSet.has set.now) text.now result }
{
    text.len() - run_backward(set, text, text.len())
}

// How many bytes of a text are left when the white space at its end is taken off.
// This and the next are the two sets in use: the body and its laws stand once, above; their contracts name the sets, which a generic one could not.
pub fn trim_end(text: &[u8]) -> usize
    ensures value { result ≡ kept (in_ranges white_space) text.now }
    ensures within { result ≤ length text.now }
    ensures least { Trims (in_ranges white_space) text.now result }
{
    trim_end_matches(text, &White::new())
}

// How many bytes of a text are left when the white space other than CR and LF at its end is taken off.
pub fn trim_end_inline(text: &[u8]) -> usize
    ensures value { result ≡ kept (in_line white_space) text.now }
    ensures within { result ≤ length text.now }
    ensures least { Trims (in_line white_space) text.now result }
{
    trim_end_matches(text, &InlineWhite::new())
}

// How many bytes the white space at the front has.
pub fn skip_whitespace(rest: &[u8]) -> usize
    ensures value { result ≡ white_run (in_ranges white_space) rest.now }
    ensures within { result ≤ length rest.now }
    ensures longest { Longest (in_ranges white_space) rest.now result }
{
    run_forward(&White::new(), rest)
}

// Whether only white space other than CR and LF lies back from a place to a CR, an LF or the start. A cursor would ask that the place lies in the source;
// this answers for places past the end too.
pub fn line_is_white(source: &[u8], at: usize) -> bool
    ensures value { result ≡ all_pass (in_line white_space) (line_before (behind_at source.now at) []) }
    ensures line { Decides result (WhiteLine source.now at) }
{
    let front = until(source, at);
    match until(front, trim_end_inline(front)) {
        [] => true,
        [.., b] => is_line_end(*b),
    }
}

// Whether a strip is due before an opening with no sign that stands at a place. As above it answers for places past the end too, which a cursor would refuse.
pub fn should_lstrip_block(
    settings: &Settings,
    marker: StartMarker,
    source: &[u8],
    at: usize,
) -> bool
    ensures { result ≡ due (config_of settings.now) marker (behind_at source.now at) }
{
    let flag = settings.whitespace().lstrip_blocks;
    match marker {
        StartMarker::Variable => false,
        StartMarker::Block | StartMarker::Comment => flag && line_is_white(source, at),
        StartMarker::LineStatement | StartMarker::LineComment => !flag || line_is_white(source, at),
    }
}

// How many bytes of a text a strip leaves: it takes white space other than CR and LF off, if nothing or an LF is then at the end.
#[tactic(auto, using(crate::proofs::Strips::left_all))]
pub fn lstrip_block(text: &[u8]) -> usize
    ensures value { result ≡ left_over (kept (in_line white_space) text.now) text.now }
    ensures within { result ≤ length text.now }
    ensures left { Left text.now result }
{
    let trimmed = trim_end_inline(text);
    match until(text, trimmed) {
        [] | [.., b'\n'] => trimmed,
        _ => text.len(),
    }
}

// How many bytes of a text are left before an opening with this sign that is so far ahead.
pub fn left_before(
    here: &Cursor,
    distance: usize,
    marker: StartMarker,
    ws: Whitespace,
    text: &[u8],
) -> usize
    requires { distance ≤ length (ahead here.now) }
    ensures value { result ≡ left_before (config_at here.now) marker ws (behind_at here.now.source.now (here.now.offset + distance)) text.now }
    ensures within { result ≤ length text.now }
{
    let at = here.offset + distance;
    match ws {
        Whitespace::Remove => trim_end(text),
        Whitespace::Default if should_lstrip_block(here.settings, marker, here.source, at) => {
            lstrip_block(text)
        }
        _ => text.len(),
    }
}

// How many of the bytes ahead are left as text before an opening with this sign that is so far ahead.
#[tactic(auto, using(crate::proofs::Strips::lead_left))]
pub fn lead(here: &Cursor, distance: usize, marker: StartMarker, ws: Whitespace) -> usize
    requires { distance ≤ length (ahead here.now) }
    ensures value { result ≡ lead_of (config_at here.now) marker ws (behind here.now) (take distance (ahead here.now)) }
    ensures within { result ≤ distance }
{
    left_before(here, distance, marker, ws, until(here.ahead(), distance))
}
