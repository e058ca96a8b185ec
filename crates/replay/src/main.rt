// Replays recorded answers of the original on our decoder.
//
// Each line has a text in hexadecimal and what the original answered: `= HEX` for decoded bytes, `!` for a refusal, and `~ HEX` where it
// took a sign for a digit, which we refuse. `-` stands for no bytes.

#![tactic(auto)]

use anyhow::{Context, anyhow};
use decode::{DecodeError, decode_to_vec};
use escape::DecodeFault;
use hex_fields::field;
use std::alloc::Global;
use std::io::Read;

// What a recorded answer asks of us.
#[derive(Drop)]
enum Wanted {
    Bytes(Vec<u8>),
    Refusal,
    SignRefused,
}

// The recorded answer: its mark, and the bytes behind it.
fn read_answer(heap: Global, answer: &str) -> anyhow::Result<Wanted> {
    match answer.split_once(' ') {
        None if answer == "!" => Ok(Wanted::Refusal),
        Some(("=", hex)) => Ok(Wanted::Bytes(field(heap, hex.as_bytes())?)),
        Some(("~", _)) => Ok(Wanted::SignRefused),
        _ => Err(anyhow!("no such mark")),
    }
}

// How our answer stands to the recorded one.
#[derive(Clone, Copy, Debug, PartialEq, Eq)]
enum Outcome {
    Agreed,
    SignAsDigit,
    Unknown,
}

// Decodes a text, and compares with what was recorded.
fn compare(heap: Global, text: &[u8], recorded: &Wanted) -> anyhow::Result<Outcome> {
    match (decode_to_vec(heap, text), recorded) {
        (Ok(ours), Wanted::Bytes(theirs)) if ours == *theirs => Ok(Outcome::Agreed),
        (Err(DecodeError::Fault(DecodeFault::Escape(_))), Wanted::Refusal) => Ok(Outcome::Agreed),
        (Err(DecodeError::Fault(DecodeFault::Escape(_))), Wanted::SignRefused) => Ok(
            Outcome::SignAsDigit,
        ),
        (Err(error @ DecodeError::NoMemory), _) => Err(error.into()),
        _ => Ok(Outcome::Unknown),
    }
}

// Replays one line.
fn replay_line(heap: Global, line: &str) -> anyhow::Result<Outcome> {
    let (text, answer) = line.split_once(' ').context("no answer on the line")?;
    let recorded = read_answer(heap, answer)?;
    compare(heap, &field(heap, text.as_bytes())?, &recorded)
}

fn run(rt: &(impl AllocGlobal + Input + Print)) -> anyhow::Result<()> {
    let mut input = Vec::new(rt.alloc());
    rt.reader().read_to_end(&mut input)?;
    // counted by hand: a line may end the run, and an unknown one is printed, so a fold would be no plainer
    let (mut agreed, mut signs, mut unknown) = (0u64, 0u64, 0u64);
    for line in std::str::from_utf8(input.as_slice())?.lines() {
        match replay_line(rt.alloc(), line)? {
            Outcome::Agreed => agreed = agreed.saturating_add(1),
            Outcome::SignAsDigit => signs = signs.saturating_add(1),
            Outcome::Unknown => {
                unknown = unknown.saturating_add(1);
                println!(rt; "differs: {line}")?;
            }
        }
    }
    println!(rt; "{agreed} agreed, {signs} refused for a sign as a digit, {unknown} unknown")?;
    Ok(())
}

fn main(rt: HostRuntime) -> anyhow::Result<()> {
    run(&rt)
}
