// Reads standard input line by line, takes each line as the text between the quotes of a string, and prints what it means.

#![tactic(auto)]

mod line;

use byte_search::until;
use decode::decode_into;
use escape::DecodeFault;
use hex_fields::Hex;
use line::next_line;
use std::env;
use std::io::Read;
use std::rt::Env;

// Prints the bytes that one text means, or why it is refused.
fn show(rt: &impl Print, number: u64, answer: Result<&[u8], DecodeFault>) -> anyhow::Result<()> {
    match answer {
        Ok(bytes) => {
            let hex = Hex(bytes);
            let shown = std::str::from_utf8(bytes)?;
            println!(rt; "{number} = {hex} {shown:?}")?;
        }
        Err(fault) => {
            let code = fault.number();
            println!(rt; "{number} ! {code} {fault}")?;
        }
    }
    Ok(())
}

// The room that the first argument gives a destination, or this much without one.
fn room_or(rt: &(impl Alloc + Env), enough: usize) -> anyhow::Result<usize> {
    match env::args(rt)?.nth(1) {
        Some(room) => Ok(room.as_str().parse::<usize>()?),
        None => Ok(enough),
    }
}

fn run(rt: &(impl Alloc + Env + Input + Print)) -> anyhow::Result<()> {
    let mut input = Vec::new(rt.alloc());
    rt.reader().read_to_end(&mut input)?;
    // what is decoded is no longer than its text
    let mut room = vec![in rt.alloc(); 0; room_or(rt, input.len())?]?;
    let mut rest = input.as_slice();
    let (mut texts, mut decoded) = (0u64, 0u64);
    // By `next_line`, whose contract says which lines there are; each is printed and counted as it comes, so a chain with a fold would be no plainer.
    while !rest.is_empty() {
        let (text, more) = next_line(rest);
        rest = more;
        let answer = decode_into(text, &mut room).map(|len| until(&room, len));
        texts = texts.saturating_add(1);
        decoded = decoded.saturating_add(u64::from(answer.is_ok()));
        show(rt, texts, answer)?;
    }
    let refused = texts.saturating_sub(decoded);
    println!(rt; "{texts} texts: {decoded} decoded, {refused} refused")?;
    Ok(())
}

fn main(rt: HostRuntime) -> anyhow::Result<()> {
    run(&rt)
}
