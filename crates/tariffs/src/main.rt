// Standard input: an image and then seconds. Standard output: a line for each second.
#![tactic(auto)]

use lines::write_lines;
use std::io;
use std::io::{BufWriter, Read, Write};

fn main(rt: HostRuntime) -> io::Result<()> {
    let mut input = Vec::new(rt.alloc());
    rt.stdin().read_to_end(&mut input)?;
    let mut out = BufWriter::new(rt.alloc(), rt.stdout())?;
    write_lines(input.as_mut_slice(), &mut out)?;
    out.flush()
}
