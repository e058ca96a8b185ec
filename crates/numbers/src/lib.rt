// Numbers: the longest that stands at the front, its parts, and its value.

#![tactic(auto)]

ghost use Rattle.std.specs.Prelude.{◌≡◌, ℕ, ◌+◌, ◌^◌, ◌<◌, length, Decides};
ghost use Rattle.rules.specs.declared.NumberState.TheVariants.{RadixInteger, Integer};
ghost use Rattle.rules.specs.Bytes.{last_is};
ghost use Rattle.rules.specs.State.{verdict_of};
ghost use Rattle.rules.specs.Numbers.{value_of, integer as integer_of, number_by, scan as scan_at, scanned, number as number_at};
ghost use Rattle.numbers.specs.Told.{told_as};
ghost use Rattle.numbers.specs.Within.{EndsIn, Within};

mod parts;
mod values;

use byte_search::until;
pub use parts::Scanner;
use pieces::{FaultKind, Kind};
use rules::{Fault, LexerState, NumberState, Pending, Step};
pub use values::from_str_radix;

// An integer: below 2^64 it has its value, and from 2^128 on it is bad. Digits and base go as the library's `from_str_radix` takes them: a struct of both
// would be made for one call each.
fn integer(digits: &[u8], radix: u32) -> Result<(Kind, Option<u64>), FaultKind>
    ensures { (len : ℕ) (state : LexerState) → told_as len state result ≡ integer_of len state (value_of radix digits.now) }
{
    let value = from_str_radix(digits, radix).ok_or(FaultKind::BadInteger)?;
    match u64::try_from(value) {
        Ok(int) => Ok((Kind::Int, Some(int))),
        Err(_) => Ok((Kind::Big, None)),
    }
}

// What a number is that stops in this part: its kind, and its value if it has one.
fn stopped(part: NumberState, digits: &[u8], radix: u32) -> Result<(Kind, Option<u64>), FaultKind>
    ensures { (len : ℕ) (state : LexerState) → told_as len state result ≡ number_by part radix len state digits.now }
{
    match part {
        NumberState::RadixInteger | NumberState::Integer => integer(digits, radix),
        NumberState::Fraction | NumberState::ExponentDigits => Ok((Kind::Float, None)),
        NumberState::Exponent | NumberState::ExponentSign => Err(FaultKind::NoExponent),
    }
}

// Whether the last byte is an underscore.
fn ends_in_underscore(digits: &[u8]) -> bool
    ensures value { result ≡ last_is 95 digits.now }
    ensures last { Decides result (EndsIn 95 digits.now) }
{
    digits.ends_with(b"_")
}

impl Scanner {
    // The number whose digits stand here, behind a prefix of so many bytes.
    fn eat(self, prefix: usize, digits: &[u8], state: LexerState) -> Result<Step, Fault>
        requires { prefix + length digits.now < 2 ^ 64 }
        ensures { verdict_of result ≡ scanned self.radix prefix state digits.now (scan_at self.radix self.after_dot self.start digits.now) }
    {
        let (taken, part) = self.scan(digits);
        let digits = until(digits, taken);
        let len = prefix + taken;
        if ends_in_underscore(digits) {
            return Err(Fault {
                kind: FaultKind::TrailingUnderscore,
                distance: len,
            });
        }
        let (kind, value) = stopped(part, digits, self.radix).map_err(|kind| Fault {
            kind,
            distance: len,
        })?;
        Ok(Step {
            value,
            ..Step::plain(kind, len, state, Pending::Nothing)
        })
    }
}

// The number whose digits stand here, behind the two bytes that tell its base.
fn eat_radix(digits: &[u8], radix: u32, after_dot: bool, state: LexerState) -> Result<Step, Fault>
    requires { 2 + length digits.now < 2 ^ 64 }
    ensures { verdict_of result ≡ scanned radix 2 state digits.now (scan_at radix after_dot RadixInteger digits.now) }
{
    let scanner = Scanner {
        radix,
        after_dot,
        start: NumberState::RadixInteger,
    };
    scanner.eat(2, digits, state)
}

// The number of base 10 that stands here.
fn eat_decimal(digits: &[u8], after_dot: bool, state: LexerState) -> Result<Step, Fault>
    ensures { verdict_of result ≡ scanned 10 0 state digits.now (scan_at 10 after_dot Integer digits.now) }
{
    let scanner = Scanner {
        radix: 10,
        after_dot,
        start: NumberState::Integer,
    };
    scanner.eat(0, digits, state)
}

// The number at the front, right behind a dot or not, with the state in which the reading goes on behind it. One call behind a `match` that chooses base and
// digits was tried: that the piece lies within did not follow there.
#[tactic(auto, using(crate::proofs::Verdicts::decimal_within, crate::proofs::Verdicts::radix_within), unfolding(rules::specs::Numbers::number))]
pub fn eat_number(rest: &[u8], after_dot: bool, state: LexerState) -> Result<Step, Fault>
    ensures value { verdict_of result ≡ number_at after_dot state rest.now }
    ensures within { Within state rest.now (verdict_of result) }
{
    match rest {
        [b'0', b'b' | b'B', digits @ ..] => eat_radix(digits, 2, after_dot, state),
        [b'0', b'o' | b'O', digits @ ..] => eat_radix(digits, 8, after_dot, state),
        [b'0', b'x' | b'X', digits @ ..] => eat_radix(digits, 16, after_dot, state),
        _ => eat_decimal(rest, after_dot, state),
    }
}
