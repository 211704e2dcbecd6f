// Runs the day that stands on the standard input, and prints what came of it.
#![tactic(auto)]

use report::input::report_from;

// Prints the report of the input.
fn main(rt: HostRuntime) -> anyhow::Result<()> {
    let text = report_from(rt.alloc(), rt.stdin())?;
    rt.print(text)?;
    Ok(())
}
