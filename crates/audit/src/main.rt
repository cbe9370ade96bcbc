// Standard input: an image and then a life, one call to a line. Standard output: each call with its answer, then the meter's look and an archive reader's.
#![tactic(auto)]

use life::audit;
use std::io::{BufWriter, Read, Write};

fn main(rt: HostRuntime) -> anyhow::Result<()> {
    let mut input = Vec::new(rt.alloc());
    rt.stdin().read_to_end(&mut input)?;
    let mut out = BufWriter::new(rt.alloc(), rt.stdout())?;
    audit(rt.alloc(), input.as_mut_slice(), &mut out)?;
    out.flush()?;
    Ok(())
}
