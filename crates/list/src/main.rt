// Lists the schedule that stands on the standard input.
#![tactic(auto)]

use listing::listing::listing_of;
use std::io::Read;

// Reads all of the input and prints its lines.
fn main(rt: HostRuntime) -> anyhow::Result<()> {
    let heap = rt.alloc();
    let mut input = Vec::new(heap);
    rt.stdin().read_to_end(&mut input)?;
    let text = listing_of(heap, input.as_slice())?;
    rt.print(text)?;
    Ok(())
}
