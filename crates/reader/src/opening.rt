// Opening.
ghost use Rattle.std.specs.Prelude.{◌≡◌, IfOk};
ghost use Rattle.reader.specs.Faults.{tells};
ghost use Rattle.reader.specs.Limits.{max_len};
ghost use Rattle.reader.specs.Opens.{open_told, Opened};
ghost use Rattle.rules.specs.declared.LexerState.TheVariants.{Template};
ghost use Rattle.rules.specs.Reading.{in_expression};
ghost use Rattle.rules.specs.Shapes.{level};

use super::fault::OpenFault;
use super::reader::Reader;
use super::reading::Reading;
use rules::{BlockSentinel, LexerState};
use syntax::Settings;
use utf8::check_utf8;

// The greatest number of bytes that a template may have.
const MAX_LEN: usize = 16_777_216;

// Tests a template: refused where it has too many bytes, then where it is not UTF-8.
fn check(template: &[u8]) -> Result<(), OpenFault>
    ensures { tells result ≡ open_told max_len template.now }
{
    if template.len() > MAX_LEN {
        return Err(OpenFault::TooLong);
    }
    check_utf8(template)?;
    Ok(())
}

impl<'t> Reader<'t> {
    // A reader of a template, which starts in this state; or why there is none.
    fn open(
        settings: &Settings,
        state: LexerState,
        template: &'t [u8],
    ) -> Result<Reader<'t>, OpenFault>
        requires { level state ≡ 0 }
        ensures told { tells result ≡ open_told max_len template.now }
        ensures opened { IfOk result (λ r. Opened settings.now state template.now r) }
    {
        check(template)?;
        Ok(Reader {
            settings: *settings,
            reading: Reading::start(settings, state, template),
        })
    }

    // Opens a template under settings: a reader of it, unless it has too many bytes or is not UTF-8. Nothing is copied but the settings, and nothing allocated.
    pub fn open_template(settings: &Settings, template: &'t [u8]) -> Result<Reader<'t>, OpenFault>
        ensures told { tells result ≡ open_told max_len template.now }
        ensures opened { IfOk result (λ r. Opened settings.now Template template.now r) }
    {
        Reader::open(settings, LexerState::Template, template)
    }

    // Opens an expression, which starts inside a variable: refused as a template is.
    pub fn open_expression(settings: &Settings, template: &'t [u8]) -> Result<Reader<'t>, OpenFault>
        ensures told { tells result ≡ open_told max_len template.now }
        ensures opened { IfOk result (λ r. Opened settings.now in_expression template.now r) }
    {
        Reader::open(
            settings,
            LexerState::Inside(BlockSentinel::Expression, 0),
            template,
        )
    }
}
