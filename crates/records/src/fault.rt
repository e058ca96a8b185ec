// Why records are refused.
ghost use Rattle.std.specs.Prelude.{◌≡◌, Some};
ghost use Rattle.records.specs.Faults.{told, name_of, fault_text};

use std::error::Error;
use std::fmt;

// What is wrong with records.
#[derive(Clone, Copy, Debug, PartialEq, Eq)]
pub enum RecordFault {
    // a range leaves the template or runs backwards
    BadRange,
    // the record at this index begins before the one right before it ended
    TooEarly(usize),
}

impl RecordFault {
    // The refusal's number: the rules of this project give each one (docs/RULES.md), whatever the enum's order.
    pub fn number(self) -> u32
        ensures { result ≡ (told self).number }
    {
        match self {
            RecordFault::BadRange => 17,
            RecordFault::TooEarly(_) => 18,
        }
    }

    // The index of the record that is too early.
    pub fn index(self) -> Option<usize>
        ensures { result ≡ (told self).index }
    {
        match self {
            RecordFault::BadRange => None,
            RecordFault::TooEarly(index) => Some(index),
        }
    }

    // The fault's name.
    pub fn name(self) -> &'static str
        ensures { result.now ≡ name_of self }
    {
        match self {
            RecordFault::BadRange => "bad range",
            RecordFault::TooEarly(_) => "records do not rise",
        }
    }
}

// Shown by its name, and where one record is too early, by the record; by hand, since a derive would state no text.
impl fmt::Display for RecordFault {
    ghost output = { λ f. Some (fault_text f) };

    fn fmt<W: fmt::Write>(&self, f: &mut fmt::Formatter<W>) -> fmt::Result {
        let name = self.name();
        match *self {
            RecordFault::BadRange => f.write_str(name),
            RecordFault::TooEarly(index) => write!(f, "{name} at record {index}"),
        }
    }
}

impl Error for RecordFault {}
