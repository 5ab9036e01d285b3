// Reads a job from standard input, and prints how it went and a picture of what it drew.
#![tactic(auto)]

use std::io::{Read, Write};

fn main(rt: HostRuntime) -> anyhow::Result<()> {
    let mut job = Vec::new(rt.alloc());
    rt.stdin().read_to_end(&mut job)?;
    let text = charting::chart_job(rt.alloc(), job.as_slice())?;
    rt.stdout().write_all(text.as_bytes())?;
    Ok(())
}
