// The parts of a number, and how far they reach.
ghost use Rattle.std.specs.Prelude.{◌≡◌};
ghost use Rattle.rules.specs.Numbers.{sign_or_digit, member_ahead};

use byte_search::after;
use rules::NumberState;

// Whether a sign or a digit comes.
fn sign_or_digit(s: &[u8]) -> bool
    ensures { result ≡ sign_or_digit s.now }
{
    matches!(s, [b'+' | b'-' | b'0'..=b'9', ..])
}

// Whether an identifier comes that is no exponent.
fn member_ahead(s: &[u8]) -> bool
    ensures { result ≡ member_ahead s.now }
{
    match s {
        [b'e' | b'E', rest @ ..] => !sign_or_digit(rest),
        [b'a'..=b'z' | b'A'..=b'Z' | b'_', ..] => true,
        _ => false,
    }
}

// How a number is scanned: its base, whether a dot is right before it, and the part that it begins in.
#[derive(Clone, Copy, Debug)]
pub struct Scanner {
    pub radix: u32,
    pub after_dot: bool,
    pub start: NumberState,
}

impl Scanner {
    ghost use Rattle.rules.specs.Numbers.{turn, scan};
    ghost use Rattle.numbers.specs.Longest.{Longest};

    // What the part and the next byte decide: the part from there on, or a stop.
    fn turn(self, state: NumberState, c: u8, rest: &[u8]) -> Option<NumberState>
        ensures { result ≡ turn self.radix self.after_dot state c rest.now }
    {
        match (state, c) {
            (NumberState::RadixInteger, b'a'..=b'f' | b'A'..=b'F') if self.radix == 16 => {
                Some(state)
            }
            (NumberState::Integer, b'.') if self.after_dot || member_ahead(rest) => None,
            (NumberState::Integer, b'.') => Some(NumberState::Fraction),
            (NumberState::Integer | NumberState::Fraction, b'e' | b'E') => {
                Some(NumberState::Exponent)
            }
            (NumberState::Exponent, b'+' | b'-') => Some(NumberState::ExponentSign),
            (NumberState::Exponent | NumberState::ExponentSign, b'0'..=b'9') => {
                Some(NumberState::ExponentDigits)
            }
            (_, b'0'..=b'9' | b'_') => Some(state),
            _ => None,
        }
    }

    // How many bytes a number has, and the part in which it stops.
    pub fn scan(self, rest: &[u8]) -> (usize, NumberState)
        ensures value { result ≡ scan self.radix self.after_dot self.start rest.now }
        ensures longest { Longest self.radix self.after_dot self.start rest.now result.0 result.1 }
    {
        let mut state = self.start;
        for (len, c) in rest.iter().enumerate() {
            let Some(next) = self.turn(state, *c, after(rest, len + 1)) else {
                return (len, state);
            };
            state = next;
        }
        (rest.len(), state)
    }
}
