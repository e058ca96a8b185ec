// Lists every opening in standard input under the default delimiters: its offset, what it opens, and its length.

#![tactic(auto)]

use finder::Finder;
use finders::DefaultFinder;
use std::io::Read;

fn run(rt: &(impl Alloc + Input + Print)) -> anyhow::Result<()> {
    let mut input = Vec::new(rt.alloc());
    rt.reader().read_to_end(&mut input)?;
    let source = input.as_slice();
    // The step is what was found, and each find is printed before the next is sought, so a chain with a fold would be no plainer.
    let mut offset = 0usize;
    let mut count = 0u64;
    while let Some((distance, marker, len)) = DefaultFinder.find(source, offset) {
        let at = offset + distance;
        println!(rt; "{at} {marker} {len}")?;
        offset = at + len;
        count = count.saturating_add(1);
    }
    println!(rt; "{count} openings")?;
    Ok(())
}

fn main(rt: HostRuntime) -> anyhow::Result<()> {
    run(&rt)
}
