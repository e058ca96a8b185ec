// What a sign orders behind an end.

#![tactic(auto)]

ghost use Rattle.std.specs.Prelude.{◌≡◌};
ghost use Rattle.rules.specs.Config.{config_of};
ghost use Rattle.rules.specs.Tags.{tail, tail_of};

use rules::{Pending, Whitespace};
use spaces::line_end;
use syntax::Settings;

// That so many bytes are to be passed over, if any.
fn skip(n: usize) -> Pending
    ensures { result ≡ tail_of n }
{
    match n {
        0 => Pending::Nothing,
        _ => Pending::Tail(n),
    }
}

// What waits behind an end with this sign: `-` orders a trim, and with no sign trim_blocks passes one line end over.
pub fn handle_tail_ws(settings: &Settings, ws: Whitespace, rest: &[u8]) -> Pending
    ensures { result ≡ tail (config_of settings.now) ws rest.now }
{
    match ws {
        Whitespace::Remove => Pending::Trim,
        Whitespace::Preserve => Pending::Nothing,
        Whitespace::Default if settings.whitespace().trim_blocks => skip(line_end(rest)),
        Whitespace::Default => Pending::Nothing,
    }
}
