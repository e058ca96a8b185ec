// Tables of eight delimiters: functions over the array that draft and settings hold. That it is an array is asked for (docs/DECISIONS.md, "Forms").
ghost use Rattle.std.specs.Prelude.{◌≡◌, []};
ghost use Rattle.syntax.specs.Delims.{bytes_of};
ghost use Rattle.syntax.specs.Building.{table_of, first_empty, first_equal};
ghost use Rattle.syntax.specs.Building.{repeats as repeating};
ghost use Rattle.syntax.specs.Names.{required_names, opening_names};

use super::delimiter::Delimiter;
use super::name::DelimiterName;
use finder::StartMarker;

// The delimiter of a name.
pub(crate) fn entry(delims: &[Delimiter; 8], which: DelimiterName) -> &Delimiter
    ensures { bytes_of result.now ≡ table_of delims.now which }
{
    &delims[which.index()]
}

// The first delimiter that must not be empty and is: only the last two, the line prefixes, may be.
pub(crate) fn first_empty(delims: &[Delimiter; 8]) -> Option<DelimiterName>
    ensures { result ≡ first_empty (table_of delims.now) required_names }
{
    DelimiterName::ALL[..6]
        .iter()
        .copied()
        .find(|name| entry(delims, *name).as_bytes().is_empty())
}

// Whether a delimiter is not empty and equals one of the earlier ones.
fn repeats(delims: &[Delimiter; 8], earlier: &[DelimiterName], name: DelimiterName) -> bool
    ensures { result ≡ repeating (table_of delims.now) earlier.now name }
{
    let bytes = entry(delims, name).as_bytes();
    !bytes.is_empty()
        && earlier
            .iter()
            .any(|other| entry(delims, *other).as_bytes() == bytes)
}

// The delimiters that open, in the order in which they are compared.
fn opening_names() -> [DelimiterName; 5]
    ensures { result ≡ opening_names }
{
    StartMarker::ALL.map(DelimiterName::from)
}

// The first opening that equals an earlier one.
pub(crate) fn first_equal(delims: &[Delimiter; 8]) -> Option<DelimiterName>
    ensures { result ≡ first_equal (table_of delims.now) [] opening_names }
{
    let names = opening_names();
    for (i, name) in names.iter().enumerate() {
        if repeats(delims, &names[..i], *name) {
            return Some(*name);
        }
    }
    None
}
