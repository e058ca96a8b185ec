// Prints the listing of the template in standard input.

#![tactic(auto)]

use listings::list;
use std::io::Read;

fn run(rt: &(impl AllocGlobal + Input + Print)) -> anyhow::Result<()> {
    let mut template = Vec::new(rt.alloc());
    rt.reader().read_to_end(&mut template)?;
    print!(rt; "{}", list(rt.alloc(), template.as_slice())?)?;
    Ok(())
}

fn main(rt: HostRuntime) -> anyhow::Result<()> {
    run(&rt)
}
