use crate::reading::{Life, NotALife};
use crate::report::{write_answers, write_looks};
use anyhow::anyhow;
use layout::IMAGE_BYTES;
use reread::examine;
use std::alloc::Global;
use std::io::Write;

// An image and then a life as text: each call with its answer is written, then the meter's look and an archive reader's.
// A cut image gives the line `short`. A line that is no call is named, and nothing is performed.
pub fn audit<W: Write>(heap: Global, input: &mut [u8], out: &mut W) -> anyhow::Result<()> {
    let Some((image, lines)) = input.split_at_mut_checked(IMAGE_BYTES) else {
        writeln!(out, "short")?;
        return Ok(());
    };
    let text = String::from_utf8_lossy(heap, lines)?;
    match Life::read(heap, text.as_str()) {
        Ok(life) => live_and_report(heap, image, &life, text.as_str(), out),
        Err(NotALife::NoMemory) => Err(anyhow!("no memory")),
        Err(why) => {
            writeln!(out, "{why}")?;
            Ok(())
        }
    }
}

fn live_and_report<W: Write>(
    heap: Global,
    image: &mut [u8],
    life: &Life,
    text: &str,
    out: &mut W,
) -> anyhow::Result<()> {
    let calls = life.calls(heap)?;
    let found = examine(heap, image, calls.as_slice())?;
    write_answers(text, found.answers.as_slice(), out)?;
    write_looks(found.meter, found.reader, out)?;
    Ok(())
}
