// Why a string text is refused.
ghost use Rattle.std.specs.Prelude.{◌≡◌, Some};
ghost use Rattle.escape.specs.declared.fault.DecodeFault.TheVariants.{NotUtf8 as illformed, Escape as escaped};
ghost use Rattle.escape.specs.Faults.{name_of, number_of, place_of, fault_text};

use std::error::Error;
use std::fmt;
use utf8::NotUtf8;

// An escape is bad. The place is the byte offset of its backslash in the text.
#[derive(Clone, Copy, Debug, PartialEq, Eq)]
pub struct BadEscape {
    pub backslash: usize,
}

// Why a decoder refuses a text.
#[derive(Clone, Copy, Debug, PartialEq, Eq)]
pub enum DecodeFault {
    // the text is not UTF-8 from this byte on
    NotUtf8(NotUtf8),
    // an escape is bad
    Escape(BadEscape),
    // the destination is too short: the bytes needed
    TooShort(usize),
}

// Shown by its name and place; by hand, since a derive would state no text.
impl fmt::Display for DecodeFault {
    ghost output = { λ f. Some (fault_text f) };

    fn fmt<W: fmt::Write>(&self, f: &mut fmt::Formatter<W>) -> fmt::Result {
        let (name, place) = (self.name(), self.place());
        match self {
            DecodeFault::TooShort(_) => write!(f, "{name}, {place} bytes needed"),
            _ => write!(f, "{name} at byte {place}"),
        }
    }
}

impl Error for DecodeFault {}

impl From<NotUtf8> for DecodeFault {
    ghost from_gives = { λ x y. y ≡ illformed x };

    fn from(fault: NotUtf8) -> DecodeFault {
        DecodeFault::NotUtf8(fault)
    }
}

impl From<BadEscape> for DecodeFault {
    ghost from_gives = { λ x y. y ≡ escaped x };

    fn from(fault: BadEscape) -> DecodeFault {
        DecodeFault::Escape(fault)
    }
}

impl DecodeFault {
    // The refusal's number: the rules of this project give each one (docs/RULES.md), whatever the enum's order.
    pub fn number(self) -> u32
        ensures { result ≡ number_of self }
    {
        match self {
            DecodeFault::NotUtf8(_) => 6,
            DecodeFault::Escape(_) => 15,
            DecodeFault::TooShort(_) => 16,
        }
    }

    // The refusal's place: the byte, the backslash, or the bytes needed.
    pub fn place(self) -> usize
        ensures { result ≡ place_of self }
    {
        match self {
            DecodeFault::NotUtf8(fault) => fault.byte,
            DecodeFault::Escape(fault) => fault.backslash,
            DecodeFault::TooShort(needed) => needed,
        }
    }

    // The refusal's name.
    pub fn name(self) -> &'static str
        ensures { result.now ≡ name_of self }
    {
        match self {
            DecodeFault::NotUtf8(_) => "not UTF-8",
            DecodeFault::Escape(_) => "bad escape",
            DecodeFault::TooShort(_) => "destination too short",
        }
    }
}
