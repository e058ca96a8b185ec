// Reads on from each resting point of the template in standard input, as if what stands there were a template of its own, and tells
// whether both readings agree from there on.

#![tactic(auto)]

mod reading;
mod seeker;

ghost use Rattle.std.specs.Prelude.{◌≤◌, length};

use anyhow::Context;
use byte_search::after;
use finders::StartMarkerMatcher;
use places::Place;
use reader::OpenFault;
use reading::{Reading, Shared, piece_of};
use runs::{Ask, Call, Mode, Reply, drive};
use seeker::Seeker;
use std::alloc::Global;
use std::io;
use std::io::Read;
use syntax::{Draft, Settings};

// The greatest number of bytes that a template may have here, since it is read as often as it has resting points.
const MAX_LEN: usize = 65_536;

// How readers are asked: the settings, and the calls.
#[derive(Clone, Copy)]
struct Plan<'p> {
    settings: &'p Settings,
    asks: &'p [Ask<Seeker<'p>>],
}

// Whether a reader rests and what comes next are asked by turns, so many times, and the finders serve by turns.
fn turns<'m>(
    heap: Global,
    count: usize,
    matcher: &'m StartMarkerMatcher,
) -> anyhow::Result<Vec<Ask<Seeker<'m>>>> {
    let mut asks = Vec::new(heap);
    for turn in 0..count {
        let seeker = match turn % 2 {
            0 => Seeker::Default,
            _ => Seeker::Matcher(matcher),
        };
        asks.push(Ask::Rest)?;
        asks.push(Ask::Next(seeker))?;
    }
    Ok(asks)
}

// Calls that ask all this, with no reply yet.
fn calls_of<'m>(heap: Global, asks: &[Ask<Seeker<'m>>]) -> anyhow::Result<Vec<Call<Seeker<'m>>>> {
    let mut calls = Vec::new(heap);
    for ask in asks {
        calls.push(Call {
            ask: *ask,
            reply: None,
        })?;
    }
    Ok(calls)
}

// What calls told.
fn replies_of(heap: Global, calls: &[Call<Seeker>]) -> anyhow::Result<Vec<Reply>> {
    let mut replies = Vec::new(heap);
    for reply in calls.iter().filter_map(|call| call.reply) {
        replies.push(reply)?;
    }
    Ok(replies)
}

// What is told of a template that is not too long here; or why it is not opened.
fn read(
    heap: Global,
    plan: Plan,
    template: &[u8],
) -> anyhow::Result<Result<Vec<Reply>, OpenFault>> {
    if template.len() > MAX_LEN {
        return Ok(Err(OpenFault::TooLong));
    }
    let mut calls = calls_of(heap, plan.asks)?;
    let opened = drive(
        plan.settings,
        Mode::Template,
        template,
        calls.as_mut_slice(),
    );
    let replies = replies_of(heap, calls.as_slice())?;
    Ok(opened.map(|_| replies))
}

// Prints why a template is not opened.
fn show_refusal(rt: &impl Print, fault: OpenFault) -> io::Result<()> {
    let number = fault.number();
    match fault.byte() {
        Some(byte) => println!(rt; "refused {number} {byte}"),
        None => println!(rt; "refused {number}"),
    }
}

// Prints how far both readings agree from a resting point on.
fn show(rt: &impl Print, start: Place, shared: Shared) -> io::Result<()> {
    print!(rt; "{start} ")?;
    match shared.is_all {
        true => print!(rt; "agrees")?,
        false => print!(rt; "DIFFERS at {}", shared.reached)?,
    }
    println!(rt;
        ": {} pieces, {} bytes of text",
        shared.pieces, shared.bytes
    )
}

// Reads on from the place where a reading rests, behind so many of its replies, each call served by the other finder: whether both readings agree.
fn resume(
    rt: &(impl AllocGlobal + Print),
    plan: Plan,
    ours: Reading,
    behind: usize,
    start: Place,
) -> anyhow::Result<bool>
    requires { behind ≤ length ours.replies.now }
{
    let asks = plan.asks.get(behind + 2..ours.replies.len() + 2);
    let asks = asks.context("more is told than is asked")?;
    let template = after(ours.template, start.offset as usize);
    let again = read(rt.alloc(), Plan { asks, ..plan }, template)??;
    let other = Reading {
        template,
        replies: again.as_slice(),
    };
    let shared = ours.behind(behind).shared(&other, start);
    show(rt, start, shared)?;
    Ok(shared.is_all)
}

// Reads on from each resting point of a reading.
fn resume_all(rt: &(impl AllocGlobal + Print), plan: Plan, ours: Reading) -> anyhow::Result<()> {
    let mut reached = Place::start();
    let mut points = 0u64;
    let mut differing = 0u64;
    for (behind, reply) in ours.replies.iter().enumerate() {
        if let Some(piece) = piece_of(reply) {
            reached = piece.span.end;
        }
        if *reply == Reply::Rests(true) {
            points = points.saturating_add(1);
            let agrees = resume(rt, plan, ours, behind, reached)?;
            differing = differing.saturating_add(u64::from(!agrees));
        }
    }
    match differing {
        0 => println!(rt; "{points} resting points: all agree")?,
        _ => println!(rt; "{points} resting points: {differing} DIFFER")?,
    }
    Ok(())
}

// Reads a template to its end, and then on from each of its resting points.
fn run(rt: &(impl AllocGlobal + Input + Print)) -> anyhow::Result<()> {
    let mut input = Vec::new(rt.alloc());
    rt.reader().read_to_end(&mut input)?;
    let template = input.as_slice();
    let settings = Draft::new().build()?;
    let matcher = StartMarkerMatcher::new(&settings);
    // A template of n bytes has at most 2n + 2 pieces and then its ending. The last turn is for the second reading, which begins a turn later.
    let count = 2 * template.len().min(MAX_LEN) + 4;
    let asks = turns(rt.alloc(), count, &matcher)?;
    let plan = Plan {
        settings: &settings,
        asks: asks.as_slice(),
    };
    match read(rt.alloc(), plan, template)? {
        Ok(told) => resume_all(rt, plan, Reading::until_end(template, told.as_slice())),
        Err(fault) => Ok(show_refusal(rt, fault)?),
    }
}

fn main(rt: HostRuntime) -> anyhow::Result<()> {
    run(&rt)
}
