// Reads templates under any settings: every piece, how the reading ends, and the balance of brackets.
//
// A line has eleven fields with a space between two: the eight delimiters in hexadecimal, a dash for none; the flags; `t` for a template or `e`
// for an expression; and its bytes in hexadecimal.

#![tactic(auto)]

use anyhow::Context;
use finder::Finder;
use finders::{DefaultFinder, StartMarkerMatcher};
use hex_fields::field;
use pieces::{Piece, ReadFault};
use reader::{OpenFault, Reader};
use std::io;
use std::io::Read;
use stream::Stream;
use syntax::{DelimiterName, Draft, Settings, SyntaxFault, WhitespaceConfig};

// The default delimiters as fields; these have a finder of their own.
const DEFAULTS: &str = "7b25 257d 7b7b 7d7d 7b23 237d - - ";

// The first field of a line, and what follows it.
fn split(line: &str) -> anyhow::Result<(&str, &str)> {
    line.split_once(' ').context("a field is missing")
}

// The flags that three letters set.
fn flags(text: &str) -> WhitespaceConfig {
    WhitespaceConfig {
        keep_trailing_newline: text.contains('k'),
        lstrip_blocks: text.contains('l'),
        trim_blocks: text.contains('t'),
    }
}

// Prints why there are no settings.
fn show_refusal(rt: &impl Print, fault: SyntaxFault) -> io::Result<()> {
    let (number, which) = (fault.number(), fault.which());
    match fault.byte() {
        Some(byte) => println!(rt; "refused {number} {which} {byte}"),
        None => println!(rt; "refused {number} {which}"),
    }
}

// Prints why a template is not opened.
fn show_unopened(rt: &impl Print, fault: OpenFault) -> io::Result<()> {
    let number = fault.number();
    match fault.byte() {
        Some(byte) => println!(rt; "refused {number} {byte}"),
        None => println!(rt; "refused {number}"),
    }
}

// Prints a piece.
fn show_piece(rt: &impl Print, piece: Piece) -> io::Result<()> {
    print!(rt; "{} {} {} ", piece.kind, piece.span.start, piece.span.end)?;
    print!(rt; "{}-{}", piece.text.start, piece.text.end)?;
    if let Some(value) = piece.value {
        print!(rt; " ={value}")?;
    }
    print!(rt; " ; ")
}

// Prints a fault and the balance.
fn show_fault(rt: &impl Print, fault: ReadFault, balance: i64) -> io::Result<()> {
    print!(rt;
        "fault {} {} {} {balance}",
        fault.kind.number(),
        fault.span.start,
        fault.span.end
    )?;
    match fault.kind.backslash() {
        Some(backslash) => println!(rt; " @{backslash}"),
        None => println!(rt; ""),
    }
}

// Prints what a reader tells to the end; nothing is counted, so the loop is no walk.
fn show<F: Finder>(rt: &impl Print, mut reader: Reader, finder: &F) -> io::Result<()> {
    loop {
        match reader.next(finder) {
            Ok(Some(piece)) => show_piece(rt, piece)?,
            Ok(None) => return println!(rt; "end {}", reader.close().balance),
            Err(fault) => return show_fault(rt, fault, reader.close().balance),
        }
    }
}

// Opens a template, or an expression where the line's field says so.
fn open<'t>(settings: &Settings, mode: &str, template: &'t [u8]) -> Result<Reader<'t>, OpenFault> {
    match mode {
        "e" => Reader::open_expression(settings, template),
        _ => Reader::open_template(settings, template),
    }
}

// Answers one line. `locate` reads fields and delimiters, tells their refusals and runs over its lines in the same words: shared, each of these would be a public function,
// which a rule of the project wants with a contract and an edit of its own, and what is printed has no contract.
fn answer(rt: &(impl AllocGlobal + Print), line: &str) -> anyhow::Result<()> {
    let mut draft = Draft::new();
    let mut rest = line;
    for which in DelimiterName::ALL {
        let (text, more) = split(rest)?;
        let bytes = field(rt.alloc(), text.as_bytes())?;
        if let Err(fault) = draft.set_delimiter(which, bytes.as_slice()) {
            show_refusal(rt, fault)?;
            return Ok(());
        }
        rest = more;
    }
    let (letters, more) = split(rest)?;
    draft.set_whitespace(flags(letters));
    let (mode, text) = split(more)?;
    let template = field(rt.alloc(), text.as_bytes())?;
    match draft.build() {
        Ok(settings) => match open(&settings, mode, template.as_slice()) {
            Ok(reader) if line.starts_with(DEFAULTS) => show(rt, reader, &DefaultFinder)?,
            Ok(reader) => show(rt, reader, &StartMarkerMatcher::new(&settings))?,
            Err(fault) => show_unopened(rt, fault)?,
        },
        Err(fault) => show_refusal(rt, fault)?,
    }
    Ok(())
}

fn run(rt: &(impl AllocGlobal + Input + Print)) -> anyhow::Result<()> {
    let mut input = Vec::new(rt.alloc());
    rt.reader().read_to_end(&mut input)?;
    for line in std::str::from_utf8(input.as_slice())?.lines() {
        answer(rt, line)?;
    }
    Ok(())
}

fn main(rt: HostRuntime) -> anyhow::Result<()> {
    run(&rt)
}
