// What comes inside a tag.
ghost use Rattle.std.specs.Prelude.{◌≡◌, ◌<◌, ◌∷◌, length, Ok};
ghost use Rattle.spaces.specs.Lines.{blank_run};
ghost use Rattle.rules.specs.Cursors.{config_at, behind, ahead};
ghost use Rattle.rules.specs.State.{verdict_of};
ghost use Rattle.rules.specs.Tags.{dot_behind, inside as inside_at, blanks as blanks_at, tag_end, tag_verdict};
ghost use Rattle.tags.specs.Balances.{Moderate};

use pieces::Kind;
use rules::{BlockSentinel, Cursor, Fault, LexerState, Pending, Step, Verdict};
use spaces::blank_run;

// A place inside a tag, with bytes to come: what the tag was opened by, and the balance of its brackets, which is so small that an i64 still holds it with one
// bracket more.
#[derive(Clone, Copy, Debug)]
pub struct Tag<'s> {
    pub here: &'s Cursor<'s>,
    pub sentinel: BlockSentinel,
    pub balance: i64,
    ghost some: { 0 < length (ahead here.now) },
    ghost moderate: { Moderate balance },
}

impl<'s> Tag<'s> {
    ghost use Rattle.rules.specs.declared.LexerState.TheVariants.{Inside as inside_state};
    ghost use Rattle.tags.specs.Tag.{at_tag};

    // The state of the reading here.
    pub fn state(&self) -> LexerState
        ensures { result ≡ inside_state self.now.sentinel self.now.balance }
    {
        LexerState::Inside(self.sentinel, self.balance)
    }

    // Whether a dot is right before this place.
    #[tactic(auto, using(numbers::proofs::Lasts::ends_is, crate::proofs::Dots::dot_is))]
    pub fn after_dot(&self) -> bool
        ensures { result ≡ dot_behind (behind self.now.here.now) }
    {
        self.here.read().ends_with(b".")
    }

    // The end of the tag, else a token.
    #[inline(always)]
    fn inside(&self) -> Result<Step, Fault>
        ensures { verdict_of result ≡ at_tag inside_at self.now }
    {
        match self.close() {
            Some(step) => Ok(step),
            None => self.token(),
        }
    }

    // ASCII blanks, which are passed over, else the end of the tag or a token.
    #[inline(always)]
    fn blanks(&self) -> Result<Step, Fault>
        ensures { verdict_of result ≡ at_tag (λ s bs k b x xs. blanks_at s bs k b x xs (blank_run (x ∷ xs))) self.now }
    {
        match blank_run(self.here.ahead()) {
            0 => self.inside(),
            len => Ok(Step::plain(Kind::White, len, self.state(), Pending::Nothing)),
        }
    }
}

// The template's end: a line statement is closed there, and any other tag stays open.
fn tag_end(sentinel: BlockSentinel) -> Option<Step>
    ensures { Ok result ≡ tag_end sentinel }
{
    match sentinel {
        BlockSentinel::LineStatement => {
            Some(Step::plain(Kind::BlockEnd, 0, LexerState::Template, Pending::Nothing))
        }
        _ => None,
    }
}

// What comes inside a tag at a balance of brackets.
#[inline(always)]
#[tactic(auto, unfolding(rules::specs::Tags::tag_verdict))]
pub fn tokenize_block_or_var(here: &Cursor, sentinel: BlockSentinel, balance: i64) -> Verdict
    requires { Moderate balance }
    ensures { result ≡ tag_verdict (config_at here.now) (behind here.now) sentinel balance (ahead here.now) }
{
    if here.ahead().is_empty() {
        return Ok(tag_end(sentinel));
    }
    let tag = Tag {
        here,
        sentinel,
        balance,
    };
    match tag.statement_end() {
        Some(len) => {
            let state = LexerState::Template;
            Ok(Some(Step::plain(Kind::BlockEnd, len, state, Pending::Nothing)))
        }
        None => tag.blanks().map(Some),
    }
}
