// Identifiers.
ghost use Rattle.std.specs.Prelude.{◌≡◌};
ghost use Rattle.std.specs.List.{prefix_len};
ghost use Rattle.rules.specs.Bytes.{leads_name, is_name_part};
ghost use Rattle.words.specs.Names.{ident_len, some_len, FirstName};

// Whether an identifier may begin with `b`: an ASCII letter or `_`.
fn is_lead(b: u8) -> bool
    ensures { result ≡ leads_name b }
{
    b.is_ascii_alphabetic() || b == b'_'
}

// Whether `b` may stand in an identifier: an ASCII letter, a digit or `_`.
fn is_part(b: u8) -> bool
    ensures { result ≡ is_name_part b }
{
    b.is_ascii_alphanumeric() || b == b'_'
}

// How many bytes at the front may stand in an identifier.
fn part_run(rest: &[u8]) -> usize
    ensures { result ≡ prefix_len is_name_part rest.now }
{
    rest.iter().take_while(|b| is_part(**b)).count()
}

// How many bytes the identifier at the front has, if one begins there.
#[tactic(auto, using(crate::proofs::Runs::name_value))]
pub fn lex_identifier(rest: &[u8]) -> Option<usize>
    ensures value { result ≡ some_len (ident_len rest.now) }
    ensures longest { FirstName rest.now result }
{
    match rest {
        [b, ..] if is_lead(*b) => Some(part_run(rest)),
        _ => None,
    }
}
