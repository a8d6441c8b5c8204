// Reads a console's file of records from standard input, and prints a line for each.
#![tactic(auto)]

use std::io::Read;
use transcript::Transcript;

// The most bytes that are read: 2,730 records.
const MAX_INPUT: u64 = 65_520;

fn run(rt: &HostRuntime) -> anyhow::Result<()> {
    let mut input = Vec::new(rt.alloc());
    rt.stdin().take(MAX_INPUT).read_to_end(&mut input)?;
    print!(rt; "{}", Transcript::of(input.as_slice()))?;
    Ok(())
}

fn main(rt: HostRuntime) -> anyhow::Result<()> {
    run(&rt)
}
