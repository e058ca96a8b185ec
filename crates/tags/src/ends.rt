// The ends of tags.
ghost use Rattle.std.specs.Prelude.{◌≡◌, drop, Some as just, Ok as ok, option_copied, option_map};
ghost use Rattle.rules.specs.Cursors.{config_at, ahead};
ghost use Rattle.rules.specs.Tags.{end_of, trim_by, closing as closing_at, closes as closes_at, is_zero, close as close_at, line_rest, statement_end};
ghost use Rattle.spaces.specs.Runs.{white_run};
ghost use Rattle.spaces.specs.Spaces.{white_space, in_line};

use super::tag::Tag;
use byte_search::after;
use pieces::Kind;
use rules::{BlockSentinel, LexerState, Pending, Step, Whitespace};
use signs::handle_tail_ws;
use spaces::{InlineWhite, line_end, run_forward};
use syntax::DelimiterName;

// `-` orders a trim behind a variable.
fn trim_by(ws: Whitespace) -> Pending
    ensures { result ≡ trim_by ws }
{
    match ws {
        Whitespace::Remove => Pending::Trim,
        Whitespace::Preserve | Whitespace::Default => Pending::Nothing,
    }
}

// How many bytes White_Space other than CR and LF has, together with the line end behind it; nothing where neither a line end nor the template's end follows.
fn line_rest(rest: &[u8]) -> Option<usize>
    ensures { result ≡ line_rest (white_run (in_line white_space) rest.now) (drop (white_run (in_line white_space) rest.now) rest.now) }
{
    let white = run_forward(&InlineWhite::new(), rest);
    let behind = after(rest, white);
    let end = line_end(behind);
    (behind.is_empty() || end != 0).then_some(white + end)
}

impl<'s> Tag<'s> {
    ghost use Rattle.tags.specs.Tag.{at_tag};

    // Whether as many brackets are closed as are opened.
    fn is_balanced(&self) -> bool
        ensures { result ≡ is_zero self.now.balance }
    {
        self.balance == 0
    }

    // What ends the tag; a line statement has no such end.
    #[inline(always)]
    fn end(&self) -> Option<&'s [u8]>
        ensures { option_copied result ≡ end_of (config_at self.now.here.now) self.now.sentinel }
    {
        let name = match self.sentinel {
            BlockSentinel::Variable | BlockSentinel::Expression => DelimiterName::VariableEnd,
            BlockSentinel::Block => DelimiterName::BlockEnd,
            BlockSentinel::LineStatement => return None,
        };
        Some(self.here.settings.delimiter(name))
    }

    // An end of so many bytes with its sign.
    #[inline(always)]
    fn closing(&self, ws: Whitespace, len: usize) -> Step
        ensures { ok (just result) ≡ closing_at (config_at self.now.here.now) self.now.sentinel ws len (ahead self.now.here.now) }
    {
        let (kind, state, pending) = match self.sentinel {
            BlockSentinel::Variable => (Kind::VariableEnd, LexerState::Template, trim_by(ws)),
            BlockSentinel::Expression => (Kind::VariableEnd, LexerState::Over, Pending::Nothing),
            BlockSentinel::Block => {
                let behind = after(self.here.ahead(), len);
                let pending = handle_tail_ws(self.here.settings, ws, behind);
                (Kind::BlockEnd, LexerState::Template, pending)
            }
            BlockSentinel::LineStatement => {
                (Kind::BlockEnd, LexerState::Template, Pending::Nothing)
            }
        };
        Step::plain(kind, len, state, pending)
    }

    // The end of the tag at the front: a sign and the end are tried first, then the end alone.
    #[inline(always)]
    fn closes(&self, end: &[u8]) -> Option<Step>
        ensures { option_map (λ p. ok (just p)) result ≡ at_tag (λ s bs k b x xs. closes_at s k end.now x xs) self.now }
    {
        let (len, ws) = Whitespace::signed_end(self.here.ahead(), end)?;
        Some(self.closing(ws, len))
    }

    // The end of the tag at the front, at a balance of exactly 0.
    #[inline(always)]
    #[tactic(auto, unfolding(rules::specs::Tags::close))]
    pub fn close(&self) -> Option<Step>
        ensures { option_map (λ p. ok (just p)) result ≡ at_tag (λ s bs. close_at s) self.now }
    {
        if !self.is_balanced() {
            return None;
        }
        self.closes(self.end()?)
    }

    // How many bytes the end of a line statement has, at a balance of exactly 0: those of the rest of its line (`line_rest`), if that is white.
    pub fn statement_end(&self) -> Option<usize>
        ensures { result ≡ statement_end (config_at self.now.here.now) self.now.sentinel self.now.balance (ahead self.now.here.now) }
    {
        match self.sentinel {
            BlockSentinel::LineStatement if self.is_balanced() => line_rest(self.here.ahead()),
            _ => None,
        }
    }
}
