// Plays the commands that are typed on standard input, and prints what came of them.
#![tactic(auto)]

use std::io::Read;

fn main(rt: HostRuntime) -> anyhow::Result<()> {
    let heap = rt.alloc();
    let mut input = Vec::new(heap);
    rt.stdin().read_to_end(&mut input)?;
    let text = transcript::transcript(heap, &input)?;
    rt.print(text)?;
    Ok(())
}
