// The listing of a template: a line for each piece, where it stands, and how the reading ends.

#![tactic(auto)]

mod row;
mod rows;

ghost use Rattle.std.specs.Prelude.{◌≡◌, ◌++◌, IfOk, OnOk, string_bytes};
ghost use Rattle.finders.specs.Defaults.{default_openings};
ghost use Rattle.syntax.specs.Openings.{openings_of};
ghost use Rattle.places.specs.Places.{first_place};
ghost use Rattle.rules.specs.Config.{config_of, default_config};
ghost use Rattle.rules.specs.declared.LexerState.TheVariants.{Template};
ghost use Rattle.reader.specs.Faults.{told, tells};
ghost use Rattle.reader.specs.Opens.{open_told, Opened};
ghost use Rattle.listings.specs.Examples.{ExamplesHold};
ghost use Rattle.listings.specs.Listing.{max_listed, lines, end_line, fault_line, refusal_line, pieces_in, listing};
ghost use Rattle.listings.specs.Rows.{joined, Joins};

use finders::DefaultFinder;
use pieces::ReadFault;
use places::{Place, Span};
use reader::{OpenFault, Reader};
use row::Row;
use rows::Rows;
use std::alloc::{AllocError, Global};
use stream::Stream;
use syntax::{Draft, Settings};

// The greatest number of bytes that a template may have to be listed.
const MAX_LEN: usize = 65_536;

// The default settings.
#[tactic(auto, using(syntax::proofs::Defaults::defaults_openings, crate::proofs::Defaults::defaults_config))]
fn default_settings() -> Settings
    ensures config { config_of result ≡ default_config }
    ensures openings { openings_of result ≡ default_openings }
{
    match Draft::new().build() {
        Ok(settings) => settings,
        Err(_) => unreachable!(),
    }
}

// Opens a template that is to be listed: refused where it has too many bytes, then where it is not UTF-8.
fn open<'t>(settings: &Settings, template: &'t [u8]) -> Result<Reader<'t>, OpenFault>
    ensures told { tells result ≡ open_told max_listed template.now }
    ensures opened { IfOk result (λ r. Opened settings.now Template template.now r) }
{
    if template.len() > MAX_LEN {
        return Err(OpenFault::TooLong);
    }
    Reader::open_template(settings, template)
}

// Adds the line of a template that is not opened.
fn add_refusal(out: &mut String, fault: OpenFault) -> Result<(), AllocError>
    ensures { OnOk result (string_bytes out.new ≡ string_bytes out.old ++ refusal_line (told fault)) }
{
    let number = fault.number();
    match fault.byte() {
        Some(byte) => writeln!(out, "refused {number} {byte}"),
        None => writeln!(out, "refused {number}"),
    }
}

// Adds the last line of a reading that is finished, at the place that was reached.
fn add_end(out: &mut String, reached: Place) -> Result<(), AllocError>
    ensures { OnOk result (string_bytes out.new ≡ string_bytes out.old ++ end_line reached) }
{
    writeln!(out, "end {reached} {reached}")
}

// Adds the last line of a reading that failed.
fn add_fault(out: &mut String, fault: ReadFault) -> Result<(), AllocError>
    ensures { OnOk result (string_bytes out.new ≡ string_bytes out.old ++ fault_line fault) }
{
    let number = fault.kind.number();
    let Span { start, end } = fault.span;
    writeln!(out, "fault {number} {start} {end}")
}

// Adds a line for each row that is still to come, and the last line.
fn add_lines<S: Stream<Item = Row, Fault = ReadFault> + Drop>(
    out: &mut String,
    mut rows: S,
) -> Result<(), AllocError>
    ensures { S.Stream.serves rows default_openings → OnOk result (string_bytes out.new ≡ string_bytes out.old ++ lines first_place (S.Stream.items rows) (S.Stream.ending rows)) }
{
    let mut reached = Place::start();
    loop {
        match rows.next(&DefaultFinder) {
            Ok(Some(row)) => {
                writeln!(out, "{row}")?;
                reached = row.span.end;
            }
            Ok(None) => return add_end(out, reached),
            Err(fault) => return add_fault(out, fault),
        }
    }
}

// Adds the listing of a template under the default settings.
fn add_listing(out: &mut String, template: &[u8]) -> Result<(), AllocError>
    ensures { OnOk result (string_bytes out.new ≡ string_bytes out.old ++ listing template.now) }
{
    let settings = default_settings();
    match open(&settings, template) {
        Ok(reader) => add_lines(out, Rows::new(reader)),
        Err(fault) => add_refusal(out, fault),
    }
}

// The listing of a template under the default settings, in memory of its own.
#[tactic(auto, using(crate::proofs::Runs::rows_join, crate::proofs::Evaluated::examples_hold))]
pub fn list(heap: Global, template: &[u8]) -> Result<String, AllocError>
    ensures listing { IfOk result (λ s. string_bytes s ≡ listing template.now) }
    ensures rows { Joins (pieces_in template.now) (joined (pieces_in template.now)) }
    ensures examples { ExamplesHold }
{
    let mut out = String::new(heap);
    add_listing(&mut out, template)?;
    Ok(out)
}
