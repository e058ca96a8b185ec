// Settings.
ghost use Rattle.std.specs.Prelude.{◌≡◌, ◌<◌, ◌≤◌, true, false, length, IsUtf8};
ghost use Rattle.syntax.specs.Building.{table_of, passes, Fit};
ghost use Rattle.syntax.specs.Names.{line_prefix};

use super::delimiter::Delimiter;
use super::name::DelimiterName;
use super::table::entry;
use super::whitespace::WhitespaceConfig;

// Eight delimiters that building has tested, and the whitespace flags.
#[derive(Clone, Copy, Debug)]
pub struct Settings {
    // the draft's array
    pub(crate) delims: [Delimiter; 8],
    pub(crate) whitespace: WhitespaceConfig,
    ghost tested: { passes (table_of delims) ≡ true },
}

impl Settings {
    ghost use Rattle.syntax.specs.Delims.{bytes_of};
    ghost use Rattle.syntax.specs.Openings.{setting_of, openings_of, Lawful};

    // A delimiter.
    pub fn entry(&self, which: DelimiterName) -> &Delimiter
        ensures value { bytes_of result.now ≡ setting_of self.now which }
        ensures filled { line_prefix which ≡ false → 0 < length (bytes_of result.now) }
    {
        entry(&self.delims, which)
    }

    // The bytes of a delimiter.
    pub fn delimiter(&self, which: DelimiterName) -> &[u8]
        ensures value { result.now ≡ setting_of self.now which }
        ensures filled { line_prefix which ≡ false → 0 < length result.now }
        ensures fits { length result.now ≤ 16 }
        ensures text { IsUtf8 result.now }
        ensures sound { Fit (setting_of self.now) }
        ensures openings { Lawful (openings_of self.now) }
    {
        self.entry(which).as_bytes()
    }

    // The whitespace flags.
    pub fn whitespace(&self) -> WhitespaceConfig
        ensures { result ≡ self.now.whitespace }
    {
        self.whitespace
    }
}
