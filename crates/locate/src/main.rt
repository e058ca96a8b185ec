// Answers questions about openings: under these delimiters, what does a finder find from this offset of the source on?
//
// A line has ten fields with a space between two: the eight delimiters and the source in hexadecimal, a dash for none, and the offset.

#![tactic(auto)]

use anyhow::Context;
use finder::{Finder, StartMarker};
use finders::{DefaultFinder, StartMarkerMatcher};
use hex_fields::field;
use std::io;
use std::io::Read;
use syntax::{DelimiterName, Draft, Settings, SyntaxFault};

// The default delimiters as fields; these have a finder of their own.
const DEFAULTS: &str = "7b25 257d 7b7b 7d7d 7b23 237d - - ";

// The first field of a line, and what follows it.
fn split(line: &str) -> anyhow::Result<(&str, &str)> {
    line.split_once(' ').context("a field is missing")
}

// Prints what was found.
fn show(rt: &impl Print, found: Option<(usize, StartMarker, usize)>) -> io::Result<()> {
    match found {
        Some((distance, marker, len)) => println!(rt; "{distance} {marker} {len}"),
        None => println!(rt; "none"),
    }
}

// Prints why there are no settings.
fn show_refusal(rt: &impl Print, fault: SyntaxFault) -> io::Result<()> {
    let (number, which) = (fault.number(), fault.which());
    match fault.byte() {
        Some(byte) => println!(rt; "refused {number} {which} {byte}"),
        None => println!(rt; "refused {number} {which}"),
    }
}

// Prints what the matcher of the settings finds; a second finder has to find the same.
fn seek<F: Finder + Drop>(
    rt: &impl Print,
    settings: &Settings,
    other: Option<F>,
    source: &[u8],
    offset: usize,
) -> io::Result<()> {
    let found = StartMarkerMatcher::new(settings).find(source, offset);
    match other {
        Some(finder) if finder.find(source, offset) != found => println!(rt; "finders differ"),
        _ => show(rt, found),
    }
}

// Answers one line. What it shares with `tokenize` stands there with the reason.
fn answer(rt: &(impl AllocGlobal + Print), line: &str) -> anyhow::Result<()> {
    let mut draft = Draft::new();
    let mut rest = line;
    for which in DelimiterName::ALL {
        let (text, more) = split(rest)?;
        let bytes = field(rt.alloc(), text.as_bytes())?;
        if let Err(fault) = draft.set_delimiter(which, bytes.as_slice()) {
            show_refusal(rt, fault)?;
            return Ok(());
        }
        rest = more;
    }
    let (text, number) = split(rest)?;
    let source = field(rt.alloc(), text.as_bytes())?;
    let offset = number.parse::<usize>()?;
    let default = line.starts_with(DEFAULTS).then_some(DefaultFinder);
    match draft.build() {
        Ok(settings) => seek(rt, &settings, default, source.as_slice(), offset)?,
        Err(fault) => show_refusal(rt, fault)?,
    }
    Ok(())
}

fn run(rt: &(impl AllocGlobal + Input + Print)) -> anyhow::Result<()> {
    let mut input = Vec::new(rt.alloc());
    rt.reader().read_to_end(&mut input)?;
    for line in std::str::from_utf8(input.as_slice())?.lines() {
        answer(rt, line)?;
    }
    Ok(())
}

fn main(rt: HostRuntime) -> anyhow::Result<()> {
    run(&rt)
}
