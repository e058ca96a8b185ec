// What the rules say at a place.
ghost use Rattle.std.specs.Prelude.{◌≡◌, ◌≤◌, length};
ghost use Rattle.reader.specs.Limits.{max_len};
ghost use Rattle.rules.specs.Cursors.{config_at, behind, ahead};
ghost use Rattle.rules.specs.Shapes.{held, level};
ghost use Rattle.rules.specs.Texts.{over_verdict, verdict_by};

use finder::Finder;
use pieces::FaultKind;
use rules::{Cursor, Fault, LexerState, Pending, Verdict};
use tags::tokenize_block_or_var;
use texts::tokenize_root;

// Behind the end of an expression any byte is a fault.
fn over(rest: &[u8]) -> Verdict
    ensures { result ≡ over_verdict rest.now }
{
    match rest {
        [] => Ok(None),
        _ => Err(Fault {
            kind: FaultKind::AfterExpression,
            distance: 0,
        }),
    }
}

// What the rules say of the bytes ahead.
#[inline(always)]
pub(crate) fn verdict_at<F: Finder>(
    here: &Cursor,
    finder: &F,
    state: LexerState,
    pending: Pending,
) -> Verdict
    requires inside { held pending ≤ length (ahead here.now) }
    requires shallow { level state ≤ max_len }
    ensures { result ≡ verdict_by (F.Finder.openings finder.now) (config_at here.now) (behind here.now) (ahead here.now) state pending }
{
    match state {
        LexerState::Template => tokenize_root(here, finder, pending),
        LexerState::Inside(sentinel, balance) => tokenize_block_or_var(here, sentinel, balance),
        LexerState::Over => over(here.ahead()),
    }
}
