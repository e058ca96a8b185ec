// Tokens inside tags.
ghost use Rattle.std.specs.Prelude.{◌≡◌, length, ◌+ℤ◌, Some, Ok};
ghost use Rattle.pieces.specs.declared.kind.Kind.TheVariants.{Operator as operates};
ghost use Rattle.pieces.specs.Kinds.{operator_text};
ghost use Rattle.rules.specs.declared.LexerState.TheVariants.{Inside as inside};
ghost use Rattle.rules.specs.declared.Pending.TheVariants.{Nothing as idle};
ghost use Rattle.rules.specs.State.{plain, verdict_of};
ghost use Rattle.rules.specs.Tags.{literal as literal_at, token as token_at, weight as weight_of};
ghost use Rattle.tags.specs.Names.{named};

use super::tag::Tag;
use numbers::eat_number;
use pieces::{FaultKind, Kind, Operator};
use rules::{Fault, LexerState, Pending, Step};
use words::{eat_string, lex_identifier, operator, weight};

// An identifier, and the state in which the reading goes on behind it; else no token begins here.
#[inline(always)]
fn eat_identifier(rest: &[u8], state: LexerState) -> Result<Step, Fault>
    ensures { verdict_of result ≡ named state rest.now }
{
    lex_identifier(rest)
        .map(|len| Step::plain(Kind::Ident, len, state, Pending::Nothing))
        .ok_or(Fault {
            kind: FaultKind::NoToken,
            distance: 0,
        })
}

impl<'s> Tag<'s> {
    ghost use Rattle.tags.specs.Tag.{at_tag};

    // A string, a number or an identifier; else no token begins here.
    #[inline(always)]
    #[tactic(auto, unfolding(rules::specs::Tags::literal))]
    fn literal(&self) -> Result<Step, Fault>
        ensures { verdict_of result ≡ at_tag (λ s bs k b x xs. literal_at bs (inside k b) x xs) self.now }
    {
        let rest = self.here.ahead();
        match rest {
            [quote @ (b'"' | b'\''), text @ ..] => eat_string(*quote, text, self.state()),
            [b'0'..=b'9', ..] => eat_number(rest, self.after_dot(), self.state()),
            _ => eat_identifier(rest, self.state()),
        }
    }

    // An operator, which a bracket adds to the balance.
    #[inline(always)]
    fn operated(&self, operator: Operator) -> Step
        ensures { Ok (Some result) ≡ plain (operates operator) (length (operator_text operator)) (inside self.now.sentinel (self.now.balance +ℤ weight_of operator)) idle }
    {
        let state = LexerState::Inside(self.sentinel, self.balance + weight(operator));
        let len = operator.text().len();
        Step::plain(Kind::Operator(operator), len, state, Pending::Nothing)
    }

    // An operator, else a literal.
    #[inline(always)]
    pub fn token(&self) -> Result<Step, Fault>
        ensures { verdict_of result ≡ at_tag (λ s. token_at) self.now }
    {
        match operator(self.here.ahead()) {
            Some(operator) => Ok(self.operated(operator)),
            None => self.literal(),
        }
    }
}
