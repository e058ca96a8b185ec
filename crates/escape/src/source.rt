// The characters of a text, from which escapes are read.
ghost use Rattle.std.specs.Prelude.{◌≡◌, ◌<◌, ◌≤◌, length, drop, Some, None};
ghost use Rattle.escape.specs.Escapes.{hex_from, octal_from, Gives, Bad, begins, escape as escape_of, unicode, partner, byte_escape};
ghost use Rattle.stream.specs.Told.{Next, Falls};
ghost use Rattle.utf8.specs.Utf8.{characters};
ghost use Rattle.escape.specs.Characters.{closed};
ghost use Rattle.escape.specs.Meaning.{coming, closing, left, ahead, Took, MoreOctal, HexDigit, HexPair, Onward};

use super::chars::CharIndices;
use finder::NoFinder;
use stream::{LookAhead, Stream};
use utf8::NotUtf8;

// A text's characters with one look ahead. A method only takes characters, which `Onward` says in each contract, as some say which: a fact of the value before
// and the value behind is none that an invariant of the type could hold.
#[derive(Drop)]
pub(crate) struct Source<'t> {
    chars: LookAhead<CharIndices<'t>>,
}

impl<'t> Source<'t> {
    // The characters of the whole text.
    #[tactic(auto, unfolding(crate::specs::Meaning::coming, crate::specs::Meaning::closing, crate::specs::Meaning::left))]
    pub(crate) fn new(text: &'t [u8]) -> Source<'t>
        ensures coming { coming result ≡ characters 0 text.now }
        ensures closing { closing result ≡ closed 0 text.now }
        ensures left { left result ≡ length text.now }
    {
        Source {
            chars: LookAhead::new(CharIndices::new(text)),
        }
    }

    // Takes the next character of the text with its offset.
    #[tactic(auto, unfolding(crate::specs::Meaning::coming, crate::specs::Meaning::closing, crate::specs::Meaning::left))]
    pub(crate) fn next_char(&mut self) -> Result<Option<(usize, char)>, NotUtf8>
        ensures tells { Next (coming self.old) (closing self.old) result (coming self.new) (closing self.new) }
        ensures falls { Falls (left self.old) result (left self.new) }
    {
        self.chars.next(&NoFinder)
    }

    // Takes the next character, if there is one.
    fn take(&mut self) -> Option<char>
        ensures value { result ≡ ahead (coming self.old) }
        ensures rest { coming self.new ≡ drop 1 (coming self.old) }
        ensures onward { Onward self.old self.new }
    {
        self.next_char().ok().flatten().map(|(_, c)| c)
    }

    // The next character, which is not taken.
    #[tactic(auto, unfolding(crate::specs::Meaning::coming, crate::specs::Meaning::closing, crate::specs::Meaning::left))]
    fn peek(&mut self) -> Option<char>
        ensures value { result ≡ ahead (coming self.old) }
        ensures same { coming self.new ≡ coming self.old }
        ensures onward { Onward self.old self.new }
    {
        self.chars.look(&NoFinder).ok().flatten().map(|(_, c)| c)
    }

    // Takes a hexadecimal digit.
    #[tactic(auto, using(crate::proofs::Steps::hex_digit, crate::proofs::Steps::hex_none), unfolding(crate::specs::Escapes::hex_from))]
    fn hex_digit(&mut self) -> Option<u32>
        ensures value { HexDigit result (coming self.old) (coming self.new) }
        ensures rest { coming self.new ≡ drop 1 (coming self.old) }
        ensures onward { Onward self.old self.new }
    {
        self.take()?.to_digit(16)
    }

    // Takes two hexadecimal digits.
    fn two_digits(&mut self) -> Option<u32>
        ensures value { HexPair result (coming self.old) (coming self.new) }
        ensures onward { Onward self.old self.new }
    {
        let high = self.hex_digit()?;
        let low = self.hex_digit()?;
        Some(high * 16 + low)
    }

    // Takes four hexadecimal digits: two reads of two. A loop over the digits needs an invariant, and is no plainer.
    fn four_digits(&mut self) -> Option<u32>
        ensures value { result ≡ hex_from 4 0 (coming self.old) }
        ensures rest { elim result [ None ↦ Unit {0} | Some v ↦ (v < 65536) × (coming self.new ≡ drop 4 (coming self.old)) ] }
        ensures onward { Onward self.old self.new }
    {
        let high = self.two_digits()?;
        let low = self.two_digits()?;
        Some(high * 256 + low)
    }

    // Takes the next character; whether it is this one.
    fn takes(&mut self, c: char) -> bool
        ensures value { result ≡ begins c (coming self.old) }
        ensures rest { coming self.new ≡ drop 1 (coming self.old) }
        ensures onward { Onward self.old self.new }
    {
        self.take() == Some(c)
    }

    // Takes x and two hexadecimal digits.
    fn byte_escape(&mut self) -> Option<char>
        ensures value { Took result (byte_escape (hex_from 2 0 (drop 1 (coming self.old)))) (coming self.old) (coming self.new) }
        ensures onward { Onward self.old self.new }
    {
        self.take();
        let code = self.two_digits()?;
        char::from_u32(code)
    }

    // Takes a low surrogate's escape behind a high surrogate's.
    fn low_half(&mut self, high: u32) -> Option<char>
        requires { (0xD800 ≤ high) × (high ≤ 0xDBFF) }
        ensures value { elim result [ None ↦ partner high (coming self.old) ≡ Bad | Some v ↦ (partner high (coming self.old) ≡ Gives v 11) × (coming self.new ≡ drop 6 (coming self.old)) ] }
        ensures onward { Onward self.old self.new }
    {
        if !self.takes('\\') || !self.takes('u') {
            return None;
        }
        match self.four_digits()? {
            low @ 0xDC00..=0xDFFF => char::from_u32(
                0x10000 + (high - 0xD800) * 0x400 + (low - 0xDC00),
            ),
            _ => None,
        }
    }

    // Takes u and four hexadecimal digits, and for a high surrogate its partner.
    fn unicode_escape(&mut self) -> Option<char>
        ensures value { Took result (unicode (hex_from 4 0 (drop 1 (coming self.old))) (drop 4 (drop 1 (coming self.old)))) (coming self.old) (coming self.new) }
        ensures onward { Onward self.old self.new }
    {
        self.take();
        match self.four_digits()? {
            high @ 0xD800..=0xDBFF => self.low_half(high),
            0xDC00..=0xDFFF => None,
            code => char::from_u32(code),
        }
    }

    // Takes one more octal digit behind those of a value, if one stands there: the value with it, unless that passes 255.
    // The digits are a range of the match, with a guard on the value: that form is asked for (docs/DECISIONS.md, "Forms").
    fn more_octal(&mut self, value: u32) -> Option<u32>
        requires { value < 256 }
        ensures value { MoreOctal result value (coming self.old) (coming self.new) }
        ensures onward { Onward self.old self.new }
    {
        match self.peek() {
            Some(c @ '0'..='7') if value <= 0o37 => {
                self.take();
                Some(value * 8 + (c as u32 - '0' as u32))
            }
            Some('0'..='7') => None,
            _ => Some(value),
        }
    }

    // Takes an octal digit and up to two more.
    fn octal_escape(&mut self, first: u32) -> Option<char>
        requires { first < 8 }
        ensures value { Took result (octal_from 2 first 1 (drop 1 (coming self.old))) (coming self.old) (coming self.new) }
        ensures onward { Onward self.old self.new }
    {
        self.take();
        let second = self.more_octal(first)?;
        let third = self.more_octal(second)?;
        char::from_u32(third)
    }

    // Reads the escape behind a backslash: what it means, or nothing where it is bad.
    #[tactic(auto, unfolding(crate::specs::Escapes::meant))]
    pub(crate) fn escape(&mut self) -> Option<char>
        ensures value { Took result (escape_of (coming self.old)) (coming self.old) (coming self.new) }
        ensures onward { Onward self.old self.new }
    {
        let c = self.peek()?;
        let meant = match c {
            '"' | '\\' | '/' | '\'' => c,
            'b' => '\u{8}',
            'f' => '\u{C}',
            'n' => '\n',
            'r' => '\r',
            't' => '\t',
            'u' => return self.unicode_escape(),
            'x' => return self.byte_escape(),
            '0'..='7' => return self.octal_escape(c as u32 - '0' as u32),
            _ => return Some('\\'),
        };
        self.take();
        Some(meant)
    }
}
