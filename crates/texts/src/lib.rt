// Reading text: what comes next before an opening, and at one.
// Each function says for itself that its verdict lies in the bytes ahead (`inside`): where a callee does not, the check does not prove it of the caller.

#![tactic(auto)]

mod start;

ghost use Rattle.std.specs.Prelude.{◌≡◌, ◌+◌, ◌≤◌, length, Some};
ghost use Rattle.rules.specs.Bytes.{sign_len};
ghost use Rattle.rules.specs.Cursors.{config_at, behind, ahead};
ghost use Rattle.rules.specs.Shapes.{held};
ghost use Rattle.rules.specs.State.{plain, verdict_of};
ghost use Rattle.rules.specs.Texts.{gap_then, lead_then, opening_sign, met, real, text as text_told, trimmed as trimmed_told, text_verdict};
ghost use Rattle.raws.specs.Waiting.{Inside};

use byte_search::after;
use finder::{Finder, StartMarker};
use pieces::Kind;
use raws::handle_raw_tag;
use rules::{Cursor, Fault, LexerState, Pending, Step, Verdict, Whitespace};
use signs::handle_tail_ws;
pub use start::Start;
use strips::{lead, skip_whitespace};

// The sign behind an opening: a line statement has none.
fn opening_sign(marker: StartMarker, rest: &[u8]) -> Whitespace
    ensures value { result ≡ opening_sign marker rest.now }
    ensures fits { sign_len result ≤ length rest.now }
{
    match marker {
        StartMarker::LineStatement => Whitespace::Default,
        _ => Whitespace::at_front(rest),
    }
}

// All that is left is text.
fn all_text(here: &Cursor) -> Step
    ensures { Ok (Some result) ≡ plain Kind.Text (length (ahead here.now)) LexerState.Template Pending.Nothing }
{
    Step::plain(
        Kind::Text,
        here.ahead().len(),
        LexerState::Template,
        Pending::Nothing,
    )
}

// An opening that lies so far ahead: what it opens, and how many bytes it has.
#[derive(Clone, Copy, Debug)]
struct Opening<'s> {
    here: &'s Cursor<'s>,
    distance: usize,
    marker: StartMarker,
    len: usize,
    ghost within: { distance + len ≤ length (ahead here.now) },
}

impl<'s> Opening<'s> {
    // White space before it, if there is any, then what it opens.
    fn gap_then(&self) -> Result<Step, Fault>
        ensures value { verdict_of result ≡ gap_then (config_at self.now.here.now) self.now.distance self.now.marker self.now.len (ahead self.now.here.now) }
        ensures inside { Inside (length (ahead self.now.here.now)) (verdict_of result) }
    {
        if self.distance > 0 {
            return Ok(Step::plain(
                Kind::White,
                self.distance,
                LexerState::Template,
                Pending::Marker(self.marker, 0, self.len),
            ));
        }
        let start = Start {
            rest: self.here.ahead(),
            len: self.len,
        };
        start.handle_start_marker(self.here.settings, self.marker)
    }

    // The text before it, so many bytes, if there is any, then the white space.
    fn lead_then(&self, text: usize) -> Result<Step, Fault>
        requires { text ≤ self.now.distance }
        ensures value { verdict_of result ≡ lead_then (config_at self.now.here.now) text self.now.distance self.now.marker self.now.len (ahead self.now.here.now) }
        ensures inside { Inside (length (ahead self.now.here.now)) (verdict_of result) }
    {
        match text {
            0 => self.gap_then(),
            _ => Ok(Step::plain(
                Kind::Text,
                text,
                LexerState::Template,
                Pending::Marker(self.marker, self.distance - text, self.len),
            )),
        }
    }

    // Text to it, as it was found, with its sign behind it; one of no bytes opens nothing, and all that is left is text.
    fn meet(&self) -> Result<Step, Fault>
        ensures value { verdict_of result ≡ met (config_at self.now.here.now) (behind self.now.here.now) (ahead self.now.here.now) (real (Some (self.now.distance, self.now.marker, self.now.len))) }
        ensures inside { Inside (length (ahead self.now.here.now)) (verdict_of result) }
    {
        if self.len == 0 {
            return Ok(all_text(self.here));
        }
        let ws = opening_sign(
            self.marker,
            after(self.here.ahead(), self.distance + self.len),
        );
        let text = lead(self.here, self.distance, self.marker, ws);
        let signed = Opening {
            here: self.here,
            distance: self.distance,
            marker: self.marker,
            len: self.len + ws.len(),
        };
        signed.lead_then(text)
    }
}

// Text to the next opening that the finder tells; with none it is all that is left.
#[tactic(auto, using(crate::proofs::Seeking::none_left, crate::proofs::Seeking::some_left, crate::proofs::Alike::found_behind))]
fn text<F: Finder>(here: &Cursor, finder: &F) -> Verdict
    ensures value { result ≡ text_told (F.Finder.openings finder.now) (config_at here.now) (behind here.now) (ahead here.now) }
    ensures inside { Inside (length (ahead here.now)) result }
{
    if here.ahead().is_empty() {
        return Ok(None);
    }
    let Some((distance, marker, len)) = finder.find(here.source, here.offset) else {
        return Ok(Some(all_text(here)));
    };
    let opening = Opening {
        here,
        distance,
        marker,
        len,
    };
    opening.meet().map(Some)
}

// White space that was ordered to be trimmed, if there is any, else text.
fn trimmed<F: Finder>(here: &Cursor, finder: &F, white: usize) -> Verdict
    requires { white ≤ length (ahead here.now) }
    ensures value { result ≡ trimmed_told (F.Finder.openings finder.now) (config_at here.now) (behind here.now) (ahead here.now) white }
    ensures inside { Inside (length (ahead here.now)) result }
{
    match white {
        0 => text(here, finder),
        _ => Ok(Some(Step::plain(Kind::White, white, LexerState::Template, Pending::Nothing))),
    }
}

// What comes next in text, by what waits there.
#[tactic(auto, unfolding(rules::specs::Texts::text_verdict))]
pub fn tokenize_root<F: Finder>(here: &Cursor, finder: &F, pending: Pending) -> Verdict
    requires { held pending ≤ length (ahead here.now) }
    ensures value { result ≡ text_verdict (F.Finder.openings finder.now) (config_at here.now) (behind here.now) (ahead here.now) pending }
    ensures inside { Inside (length (ahead here.now)) result }
{
    match pending {
        Pending::Nothing => text(here, finder),
        Pending::Trim => trimmed(here, finder, skip_whitespace(here.ahead())),
        Pending::Tail(len) => Ok(Some(Step::plain(
            Kind::White,
            len,
            LexerState::Template,
            Pending::Nothing,
        ))),
        Pending::Marker(marker, distance, len) => {
            let opening = Opening {
                here,
                distance,
                marker,
                len,
            };
            opening.gap_then().map(Some)
        }
        Pending::RawBody(ws) => handle_raw_tag(here, ws).map(Some),
        Pending::RawClose(len, ws) => Ok(Some(Step::plain(
            Kind::RawClose,
            len,
            LexerState::Template,
            handle_tail_ws(here.settings, ws, after(here.ahead(), len)),
        ))),
    }
}
