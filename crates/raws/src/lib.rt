// Raw blocks: their tags, and the text between them.

#![tactic(auto)]

ghost use Rattle.std.specs.Prelude.{◌≡◌, ◌+◌, ◌≤◌, length, take, drop};
ghost use Rattle.rules.specs.Config.{config_of};
ghost use Rattle.rules.specs.Cursors.{config_at, behind, ahead};
ghost use Rattle.rules.specs.State.{verdict_of};
ghost use Rattle.rules.specs.Texts.{basic_end, basic_tag, closer_at, find_closer, raw_from, raw_text_by, raw_body};
ghost use Rattle.raws.specs.Closers.{Within, TagWithin, FarWithin, TagSpelt, CloserSpelt, FirstCloser, RawEnds};
ghost use Rattle.raws.specs.Waiting.{Inside};

use byte_search::{after, memstr, starts_with_bytes, until};
use finder::StartMarker;
use pieces::{FaultKind, Kind};
use rules::{Cursor, EndRaw, Fault, LexerState, Pending, Step, Whitespace};
use spaces::{blank_run, line_end};
use strips::{left_before, skip_whitespace};
use syntax::{DelimiterName, Settings};

// Where a tag ends whose end is at a place: an optional sign is tried first, then the block end alone.
fn basic_end(rest: &[u8], at: usize, block_end: &[u8]) -> Option<(usize, Whitespace)>
    ensures value { result ≡ basic_end block_end.now at (drop at rest.now) }
    ensures within { Within at rest.now result }
{
    let (len, ws) = Whitespace::signed_end(after(rest, at), block_end)?;
    Some((at + len, ws))
}

// A tag of a raw block behind its start and sign: blanks, the name, blanks, an optional sign and the block end. How many bytes it has, and the sign.
#[tactic(auto, using(crate::proofs::Tags::tag_none, crate::proofs::Tags::tag_on, crate::proofs::Spells::spelt_by))]
pub fn skip_basic_tag(rest: &[u8], name: &[u8], block_end: &[u8]) -> Option<(usize, Whitespace)>
    ensures value { result ≡ basic_tag name.now block_end.now rest.now }
    ensures within { Within (length name.now) rest.now result }
    ensures spelt { TagSpelt name.now block_end.now rest.now result }
{
    let start = blank_run(rest);
    if !starts_with_bytes(after(rest, start), name) {
        return None;
    }
    let named = start + name.len();
    let at = named + blank_run(after(rest, named));
    basic_end(rest, at, block_end)
}

// The tag that closes a raw block, if it stands in front.
#[tactic(auto, using(crate::proofs::Tags::closer_none, crate::proofs::Tags::closer_on, crate::proofs::Spells::closer_spelt_by))]
pub fn end_raw_at(settings: &Settings, rest: &[u8]) -> Option<EndRaw>
    ensures value { result ≡ closer_at (config_of settings.now) rest.now }
    ensures within { TagWithin rest.now result }
    ensures spelt { CloserSpelt (config_of settings.now) rest.now result }
{
    let block_start = settings.delimiter(DelimiterName::BlockStart);
    if !starts_with_bytes(rest, block_start) {
        return None;
    }
    let start_sign = Whitespace::at_front(after(rest, block_start.len()));
    let start = block_start.len() + start_sign.len();
    let (len, end_sign) = skip_basic_tag(
        after(rest, start),
        b"endraw",
        settings.delimiter(DelimiterName::BlockEnd),
    )?;
    Some(EndRaw {
        len: start + len,
        start_sign,
        end_sign,
    })
}

// The first tag that closes a raw block: how far it is, and the tag.
pub fn find_end_raw(settings: &Settings, rest: &[u8]) -> Option<(usize, EndRaw)>
    ensures value { result ≡ find_closer (config_of settings.now) rest.now }
    ensures first { FirstCloser (config_of settings.now) rest.now result }
    ensures within { FarWithin rest.now result }
{
    let block_start = settings.delimiter(DelimiterName::BlockStart);
    // By hand: block starts may overlap, so each search begins one byte behind the last start. The plain chain `(0..rest.len()).find_map(..)` over `end_raw_at`
    // asks at every place: tried, it takes 13 ms on 1 MiB without a block start, where `memstr` passes over it in 0.2 ms.
    let mut at = 0;
    while let Some(distance) = memstr(after(rest, at), block_start) {
        at += distance;
        if let Some(tag) = end_raw_at(settings, after(rest, at)) {
            return Some((at, tag));
        }
        at += 1;
    }
    None
}

// How many leading bytes the text of a raw body loses: white space at `-`, and a line end by trim_blocks with no sign.
fn raw_from(settings: &Settings, ws: Whitespace, body: &[u8]) -> usize
    ensures value { result ≡ raw_from (config_of settings.now) ws body.now }
    ensures within { result ≤ length body.now }
{
    match ws {
        Whitespace::Remove => skip_whitespace(body),
        Whitespace::Default if settings.whitespace().trim_blocks => line_end(body),
        _ => 0,
    }
}

// The text of a raw block, whose body runs from here to its closing tag. It says that it lies in the bytes ahead, since its callers' callers do not prove it
// from the value.
#[tactic(auto, using(crate::proofs::Bodies::raw_left))]
fn raw_text(here: &Cursor, ws: Whitespace, distance: usize, tag: EndRaw) -> Step
    requires { distance + tag.len ≤ length (ahead here.now) }
    ensures value { Ok (Some result) ≡ raw_text_by (config_at here.now) ws (behind here.now) (take distance (ahead here.now)) tag }
    ensures inside { Inside (length (ahead here.now)) (Ok (Some result)) }
{
    let body = until(here.ahead(), distance);
    let from = raw_from(here.settings, ws, body);
    let text = after(body, from);
    let kept = left_before(here, distance, StartMarker::Block, tag.start_sign, text);
    Step {
        from,
        to: from + kept,
        ..Step::plain(
            Kind::RawText,
            body.len(),
            LexerState::Template,
            Pending::RawClose(tag.len, tag.end_sign),
        )
    }
}

// The body of a raw block whose tag has this sign at its end.
#[tactic(auto, using(crate::proofs::Bodies::body_none, crate::proofs::Bodies::body_some))]
pub fn handle_raw_tag(here: &Cursor, ws: Whitespace) -> Result<Step, Fault>
    ensures value { verdict_of result ≡ raw_body (config_at here.now) ws (behind here.now) (ahead here.now) }
    ensures first { RawEnds (config_at here.now) (ahead here.now) (verdict_of result) }
    ensures inside { Inside (length (ahead here.now)) (verdict_of result) }
{
    let rest = here.ahead();
    let (distance, tag) = find_end_raw(here.settings, rest).ok_or(Fault {
        kind: FaultKind::UnendedRaw,
        distance: rest.len(),
    })?;
    Ok(raw_text(here, ws, distance, tag))
}
