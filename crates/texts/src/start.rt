// Openings that stand in front: what they open. As in `lib.rt` each function says for itself that its verdict lies in the bytes ahead.
ghost use Rattle.std.specs.Prelude.{◌≡◌, ◌+◌, ◌≤◌, length, drop, pos};
ghost use Rattle.rules.specs.Bytes.{in_line, run, LongestRun};
ghost use Rattle.rules.specs.Config.{config_of};
ghost use Rattle.rules.specs.State.{plain, verdict_of};
ghost use Rattle.rules.specs.Texts.{closing_sign, comment, line_comment_here, raw_name, basic_tag, block_by, opened};
ghost use Rattle.texts.specs.Gaps.{CommentEnds, LineEnds};
ghost use Rattle.raws.specs.Waiting.{Inside};

use byte_search::{after, memchr_any, memstr, until};
use finder::StartMarker;
use pieces::{FaultKind, Kind};
use raws::skip_basic_tag;
use rules::{BlockSentinel, Fault, LexerState, Pending, Step, Whitespace};
use signs::handle_tail_ws;
use spaces::line_end;
use syntax::{DelimiterName, Settings};

// The sign that ends a comment's body of so many bytes.
fn closing_sign(body: &[u8], end: usize) -> Whitespace
    requires { end ≤ length body.now }
    ensures { result ≡ closing_sign end body.now }
{
    match until(body, end) {
        [] => Whitespace::Default,
        [.., b] => Whitespace::from_byte(*b),
    }
}

// How many bytes stand before CR, LF or the end.
fn line_len(rest: &[u8]) -> usize
    ensures value { result ≡ run in_line rest.now }
    ensures longest { LongestRun in_line rest.now result }
{
    memchr_any(rest, [b'\r', b'\n']).unwrap_or(rest.len())
}

// An opening that stands in front, which has so many bytes with its sign. It keeps the bytes from its own first on, and not those behind it alone, since pieces
// and faults are counted from there.
#[derive(Clone, Copy, Debug)]
pub struct Start<'s> {
    pub rest: &'s [u8],
    pub len: usize,
    ghost within: { len ≤ length rest.now },
}

impl<'s> Start<'s> {
    // The bytes behind it.
    fn behind(&self) -> &'s [u8]
        ensures value { result.now ≡ drop self.now.len self.now.rest.now }
        ensures len { self.now.len + length result.now ≡ length self.now.rest.now }
    {
        after(self.rest, self.len)
    }

    // The start token of a tag.
    fn tag(&self, kind: Kind, sentinel: BlockSentinel) -> Step
        ensures { Ok (Some result) ≡ plain kind self.now.len (LexerState.Inside sentinel (pos 0)) Pending.Nothing }
    {
        Step::plain(
            kind,
            self.len,
            LexerState::Inside(sentinel, 0),
            Pending::Nothing,
        )
    }

    // A comment: it runs to its first end behind the opening.
    #[tactic(auto, using(rules::proofs::Inside::tail_fine), unfolding(rules::specs::Texts::comment))]
    pub fn comment(&self, settings: &Settings) -> Result<Step, Fault>
        ensures value { verdict_of result ≡ comment (config_of settings.now) self.now.len self.now.rest.now }
        ensures ends { CommentEnds (config_of settings.now).comment_end self.now.len self.now.rest.now (verdict_of result) }
        ensures inside { Inside (length self.now.rest.now) (verdict_of result) }
    {
        let body = self.behind();
        let comment_end = settings.delimiter(DelimiterName::CommentEnd);
        let end = memstr(body, comment_end).ok_or(Fault {
            kind: FaultKind::UnendedComment,
            distance: self.rest.len(),
        })?;
        let len = self.len + end + comment_end.len();
        let sign = closing_sign(body, end);
        let pending = handle_tail_ws(settings, sign, after(self.rest, len));
        Ok(Step::plain(Kind::Comment, len, LexerState::Template, pending))
    }

    // A line comment: it takes the rest of its line, and the line's end.
    #[tactic(auto, using(rules::proofs::Lengths::line_end_le), unfolding(rules::specs::Texts::line_comment_here))]
    pub fn line_comment(&self) -> Step
        ensures value { Ok (Some result) ≡ line_comment_here self.now.len self.now.rest.now }
        ensures ends { LineEnds self.now.len self.now.rest.now (Ok (Some result)) }
        ensures inside { Inside (length self.now.rest.now) (Ok (Some result)) }
    {
        let end = self.len + line_len(self.behind());
        let len = end + line_end(after(self.rest, end));
        Step::plain(
            Kind::LineComment,
            len,
            LexerState::Template,
            Pending::Nothing,
        )
    }

    // A block: `raw` behind the opening begins a raw block, else it is a start token.
    fn block(&self, settings: &Settings) -> Step
        ensures value { Ok (Some result) ≡ block_by self.now.len (basic_tag raw_name (config_of settings.now).block_end (drop self.now.len self.now.rest.now)) }
        ensures inside { Inside (length self.now.rest.now) (Ok (Some result)) }
    {
        let block_end = settings.delimiter(DelimiterName::BlockEnd);
        match skip_basic_tag(self.behind(), b"raw", block_end) {
            Some((len, ws)) => Step::plain(
                Kind::RawOpen,
                self.len + len,
                LexerState::Template,
                Pending::RawBody(ws),
            ),
            None => self.tag(Kind::BlockStart, BlockSentinel::Block),
        }
    }

    // What it opens.
    #[tactic(auto, unfolding(rules::specs::Texts::opened))]
    pub fn handle_start_marker(
        &self,
        settings: &Settings,
        marker: StartMarker,
    ) -> Result<Step, Fault>
        ensures value { verdict_of result ≡ opened (config_of settings.now) marker self.now.len self.now.rest.now }
        ensures inside { Inside (length self.now.rest.now) (verdict_of result) }
    {
        let step = match marker {
            StartMarker::Variable => self.tag(Kind::VariableStart, BlockSentinel::Variable),
            StartMarker::Block => self.block(settings),
            StartMarker::Comment => self.comment(settings)?,
            StartMarker::LineStatement => self.tag(Kind::BlockStart, BlockSentinel::LineStatement),
            StartMarker::LineComment => self.line_comment(),
        };
        Ok(step)
    }
}
