// What is left of a template after the cut.
ghost use Rattle.std.specs.Prelude.{◌≡◌, ◌≤◌, length};
ghost use Rattle.rules.specs.Config.{config_of};
ghost use Rattle.rules.specs.Reading.{chop, left_len};

use syntax::Settings;

// The bytes without one final byte `b`. A pattern: the checker does not know which byte the library's `strip_suffix` took off.
fn without_last(s: &[u8], b: u8) -> &[u8]
    ensures value { result.now ≡ chop b s.now }
    ensures within { length result.now ≤ length s.now }
{
    match s {
        [rest @ .., last] if *last == b => rest,
        _ => s,
    }
}

// How many bytes are left after the cut: one final LF, then one final CR are cut, unless trailing line ends are kept.
pub(crate) fn left_len(settings: &Settings, template: &[u8]) -> usize
    ensures value { result ≡ left_len (config_of settings.now) template.now }
    ensures within { result ≤ length template.now }
{
    if settings.whitespace().keep_trailing_newline {
        return template.len();
    }
    without_last(without_last(template, b'\n'), b'\r').len()
}
