// Strings.
ghost use Rattle.std.specs.Prelude.{◌≡◌, ◌+◌, false, length, Some, Ok};
ghost use Rattle.rules.specs.declared.Pending.TheVariants.{Nothing as idle};
ghost use Rattle.rules.specs.State.{told, verdict_of};
ghost use Rattle.byte_search.specs.Search.{First};
ghost use Rattle.rules.specs.Strings.{quote_end, string_of, string as string_at};
ghost use Rattle.words.specs.Quotes.{Closes};

use byte_search::{memchr, until};
use decode::decoded_len;
use pieces::{FaultKind, Kind};
use rules::{Fault, LexerState, Pending, Step};

// How far the next quote is that no backslash escapes.
pub fn quote_end(quote: u8, rest: &[u8]) -> Option<usize>
    ensures value { result ≡ quote_end quote false rest.now }
    ensures first { First (Closes quote rest.now) result }
{
    let mut escaped = false;
    for (i, b) in rest.iter().enumerate() {
        if *b == quote && !escaped {
            return Some(i);
        }
        escaped = !escaped && *b == b'\\';
    }
    None
}

// A string of this text between its quotes.
fn quoted(kind: Kind, text: &[u8], value: Option<u64>, state: LexerState) -> Step
    ensures { Ok (Some result) ≡ told kind (length text.now + 2) 1 (length text.now + 1) value state idle }
{
    Step {
        from: 1,
        to: text.len() + 1,
        value,
        ..Step::plain(kind, text.len() + 2, state, Pending::Nothing)
    }
}

// The string of this text: with a backslash the decoder decides.
fn string_of(text: &[u8], state: LexerState) -> Result<Step, Fault>
    ensures { verdict_of result ≡ string_of state text.now }
{
    if memchr(text, b'\\').is_none() {
        return Ok(quoted(Kind::Str, text, None, state));
    }
    let len = decoded_len(text).map_err(|fault| Fault {
        kind: FaultKind::from(fault),
        distance: text.len() + 2,
    })?;
    Ok(quoted(Kind::String, text, Some(len as u64), state))
}

// The string that a quote opens, with these bytes behind the quote, and the state in which the reading goes on behind the string.
#[tactic(auto, unfolding(rules::specs::Strings::string))]
pub fn eat_string(quote: u8, rest: &[u8], state: LexerState) -> Result<Step, Fault>
    ensures { verdict_of result ≡ string_at quote state rest.now }
{
    let unended = Fault {
        kind: FaultKind::UnendedString,
        distance: rest.len() + 1,
    };
    let len = quote_end(quote, rest).ok_or(unended)?;
    string_of(until(rest, len), state)
}
