// Signs.
ghost use Rattle.std.specs.Prelude.{◌≡◌, ◌≤◌, length, IfSome};

use byte_search::starts_with_bytes;

// The sign behind an opening or before an end, and what it asks of the white space there.
#[derive(Clone, Copy, Debug, PartialEq, Eq)]
pub enum Whitespace {
    // no sign
    Default,
    // `+`
    Preserve,
    // `-`
    Remove,
}

impl Whitespace {
    ghost use Rattle.rules.specs.Bytes.{sign_of, sign_at, sign_len};
    ghost use Rattle.rules.specs.Texts.{basic_end};

    // What a byte says as a sign. As in the original a name and no `From`, since most bytes say nothing.
    pub fn from_byte(b: u8) -> Whitespace
        ensures { result ≡ sign_of b }
    {
        match b {
            b'-' => Whitespace::Remove,
            b'+' => Whitespace::Preserve,
            _ => Whitespace::Default,
        }
    }

    // The sign at the front, if there is one.
    pub fn at_front(rest: &[u8]) -> Whitespace
        ensures { result ≡ sign_at rest.now }
    {
        match rest {
            [b, ..] => Whitespace::from_byte(*b),
            [] => Whitespace::Default,
        }
    }

    // How many bytes the sign has.
    pub fn len(self) -> usize
        ensures { result ≡ sign_len self }
    {
        match self {
            Whitespace::Default => 0,
            Whitespace::Preserve | Whitespace::Remove => 1,
        }
    }

    // The end of a tag at the front: a sign and the end are tried first, then the end alone. How many bytes they have, and the sign.
    #[inline(always)]
    pub fn signed_end(rest: &[u8], end: &[u8]) -> Option<(usize, Whitespace)>
        ensures value { result ≡ basic_end end.now 0 rest.now }
        ensures within { IfSome result (λ t. t.0 ≤ length rest.now) }
    {
        match rest {
            [] => None,
            [sign @ (b'-' | b'+'), behind @ ..] if starts_with_bytes(behind, end) => {
                Some((end.len() + 1, Whitespace::from_byte(*sign)))
            }
            _ if starts_with_bytes(rest, end) => Some((end.len(), Whitespace::Default)),
            _ => None,
        }
    }
}
