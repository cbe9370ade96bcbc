// An image and seconds in, a line for each look out.
#![tactic(auto)]

mod line;
mod looks;

use layout::IMAGE_BYTES;
pub use line::write_look;
use looks::{look_at, tables_in};
use std::io;
use std::io::Write;

// The line `short` for a cut image; else a line for each whole second behind it, high byte first, under the European law.
pub fn write_lines<W: Write>(input: &mut [u8], out: &mut W) -> io::Result<()> {
    let Some((image, seconds)) = input.split_at_mut_checked(IMAGE_BYTES) else {
        return writeln!(out, "short");
    };
    let tables = tables_in(image);
    let (seconds, _) = seconds.as_chunks::<4>();
    for bytes in seconds {
        let look = look_at(&tables, u32::from_be_bytes(*bytes));
        write_look(&look, out)?;
    }
    Ok(())
}
