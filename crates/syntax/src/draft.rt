// Drafts of settings.
ghost use Rattle.std.specs.Prelude.{◌≡◌, IfOk, Ok, OnErr};
ghost use Rattle.syntax.specs.Building.{build_told, Found};
ghost use Rattle.syntax.specs.Delims.{bytes_of};
ghost use Rattle.syntax.specs.Drafts.{delim_of, defaults, all_off, set_told, after_set, SetFound};
ghost use Rattle.syntax.specs.Faults.{tells};
ghost use Rattle.syntax.specs.Openings.{setting_of, openings_of, Lawful};

use super::delimiter::Delimiter;
use super::fault::SyntaxFault;
use super::name::DelimiterName;
use super::settings::Settings;
use super::table::{first_empty, first_equal};
use super::whitespace::WhitespaceConfig;
use utf8::check_utf8;

// The texts of the default delimiters, in the order of the table; the line prefixes are empty.
const DEFAULT_DELIMS: [&str; 8] = ["{%", "%}", "{{", "}}", "{#", "#}", "", ""];

// The default delimiter of a name.
fn default_delim(which: DelimiterName) -> Delimiter
    ensures { bytes_of result ≡ defaults which }
{
    Delimiter::new(DEFAULT_DELIMS[which.index()])
}

// Eight delimiters and the whitespace flags, which can be replaced until settings are built.
#[derive(Debug, Drop)]
pub struct Draft {
    // an array, of which one element is lent to be rewritten: that form is asked for (docs/DECISIONS.md, "Forms")
    pub(crate) delims: [Delimiter; 8],
    pub(crate) whitespace: WhitespaceConfig,
}

impl Draft {
    // The default delimiters, with every flag off.
    pub fn new() -> Draft
        ensures table { (n : DelimiterName) → delim_of result n ≡ defaults n }
        ensures flags { result.whitespace ≡ all_off }
        ensures builds { build_told (delim_of result) ≡ Ok tt }
    {
        Draft {
            delims: DelimiterName::ALL.map(default_delim),
            whitespace: WhitespaceConfig::default(),
        }
    }

    // Replaces one delimiter, unless it has over 16 bytes or is not UTF-8: then nothing is changed.
    pub fn set_delimiter(&mut self, which: DelimiterName, bytes: &[u8]) -> Result<(), SyntaxFault>
        ensures told { tells result ≡ set_told which bytes.now }
        ensures found { SetFound bytes.now result }
        ensures table { (n : DelimiterName) → delim_of self.new n ≡ after_set result (delim_of self.old) which bytes.now n }
        ensures flags { self.new.whitespace ≡ self.old.whitespace }
        ensures refused { OnErr result (self.new ≡ self.old) }
    {
        if bytes.len() > 16 {
            return Err(SyntaxFault::TooLong(which));
        }
        check_utf8(bytes).map_err(|fault| SyntaxFault::NotUtf8(which, fault))?;
        self.delims[which.index()].rewrite(bytes);
        Ok(())
    }

    // Replaces the whitespace flags.
    pub fn set_whitespace(&mut self, whitespace: WhitespaceConfig)
        ensures flags { self.new.whitespace ≡ whitespace }
        ensures table { self.new.delims ≡ self.old.delims }
    {
        self.whitespace = whitespace;
    }

    // Tests the delimiters, and gives settings of them: no delimiter but a line prefix is empty, and no opening equals an earlier one.
    pub fn build(&self) -> Result<Settings, SyntaxFault>
        ensures told { tells result ≡ build_told (delim_of self.now) }
        ensures found { Found (delim_of self.now) result }
        ensures table { IfOk result (λ s. (n : DelimiterName) → setting_of s n ≡ delim_of self.now n) }
        ensures flags { IfOk result (λ s. s.whitespace ≡ self.now.whitespace) }
        ensures openings { IfOk result (λ s. Lawful (openings_of s)) }
    {
        if let Some(name) = first_empty(&self.delims) {
            return Err(SyntaxFault::Empty(name));
        }
        if let Some(name) = first_equal(&self.delims) {
            return Err(SyntaxFault::Equal(name));
        }
        Ok(Settings {
            delims: self.delims,
            whitespace: self.whitespace,
        })
    }
}
