// Why a template is not opened.
ghost use Rattle.std.specs.Prelude.{◌≡◌, Some};
ghost use Rattle.reader.specs.Faults.{told, fault_name, fault_text};
ghost use Rattle.reader.specs.declared.fault.OpenFault.TheVariants.{NotUtf8 as illformed};

use std::error::Error;
use std::fmt;
use utf8::NotUtf8;

// Why a template is not opened.
#[derive(Clone, Copy, Debug, PartialEq, Eq)]
pub enum OpenFault {
    // it has too many bytes
    TooLong,
    // it is not UTF-8 from this byte on
    NotUtf8(NotUtf8),
}

impl From<NotUtf8> for OpenFault {
    ghost from_gives = { λ x y. y ≡ illformed x };

    fn from(fault: NotUtf8) -> OpenFault {
        OpenFault::NotUtf8(fault)
    }
}

impl OpenFault {
    // The refusal's number: the rules of this project give each one (docs/RULES.md), whatever the enum's order.
    pub fn number(self) -> u32
        ensures { result ≡ (told self).number }
    {
        match self {
            OpenFault::TooLong => 5,
            OpenFault::NotUtf8(_) => 6,
        }
    }

    // The byte at which the template is refused, where it is one.
    pub fn byte(self) -> Option<usize>
        ensures { result ≡ (told self).byte }
    {
        match self {
            OpenFault::TooLong => None,
            OpenFault::NotUtf8(fault) => Some(fault.byte),
        }
    }

    // The refusal's name.
    pub fn name(self) -> &'static str
        ensures { result.now ≡ fault_name self }
    {
        match self {
            OpenFault::TooLong => "too long",
            OpenFault::NotUtf8(_) => "not UTF-8",
        }
    }
}

// Shown by its name, and where a byte is at fault, by the byte; by hand, since a derive would state no text.
impl fmt::Display for OpenFault {
    ghost output = { λ f. Some (fault_text f) };

    fn fmt<W: fmt::Write>(&self, f: &mut fmt::Formatter<W>) -> fmt::Result {
        match *self {
            OpenFault::TooLong => f.write_str(self.name()),
            OpenFault::NotUtf8(fault) => write!(f, "{fault}"),
        }
    }
}

impl Error for OpenFault {}
