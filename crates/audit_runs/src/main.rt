// Stored runs of the audit program: each is a length of four bytes, high byte first, and so many bytes of input.
#![tactic(auto)]

use life::audit;
use runs::Runs;
use std::io::{BufWriter, Read, Write};

fn main(rt: HostRuntime) -> anyhow::Result<()> {
    let mut input = Vec::new(rt.alloc());
    rt.stdin().read_to_end(&mut input)?;
    let mut out = BufWriter::new(rt.alloc(), rt.stdout())?;
    // The loop stands in both such programs: a shared one would take the call as a closure, over either error, and be longer.
    for (number, run) in Runs::new(input.as_slice()).enumerate() {
        let mut copy = run.to_vec(rt.alloc())?;
        writeln!(out, "run {number}")?;
        audit(rt.alloc(), copy.as_mut_slice(), &mut out)?;
    }
    out.flush()?;
    Ok(())
}
