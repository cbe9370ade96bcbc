ghost use Rattle.std.specs.Prelude.{◌≡◌, ◌^◌, ◌<◌, ◌++◌, length, slice_set};
ghost use Rattle.layout.specs.Layout.{width as cellWidth};
ghost use Rattle.image.specs.Image.{Bytes, image_cells, image_of, image_rest};
ghost use Rattle.image.specs.Laws.{image_laws};

use crate::numbers::read_number;
use layout::{CELLS, place, width};
use store::LentStore;
use store::total::TotalFormat;

// The cells in sequence at the layout's widths, high byte first.
pub enum Image {}

pub type ImageStore<'a> = LentStore<'a, Image>;

impl TotalFormat for Image {
    type Unit = u8;

    ghost cells = { image_cells };

    ghost rest = { image_rest };

    ghost width = { cellWidth };

    ghost made = { λ cs rest. image_of cs ++ rest };

    ghost Held = { Bytes };

    ghost laws = { image_laws };

    fn known(_bytes: &[u8]) {}

    // A full image has all of them.
    #[tactic(auto, using(crate::specs::Laws::image_few))]
    fn count(bytes: &[u8]) -> u32 {
        if Self::has(bytes, CELLS - 1) {
            return CELLS;
        }
        (0..CELLS).find(|c| !Self::has(bytes, *c)).unwrap_or(CELLS)
    }

    #[tactic(auto, using(crate::proofs::Placed::places))]
    fn has(bytes: &[u8], c: u32) -> bool {
        c < CELLS && place(c) + width(c) <= bytes.len()
    }

    // The cell's place is worked out once, for the test and for the bytes.
    fn read(bytes: &[u8], c: u32) -> Option<u32> {
        if c >= CELLS {
            return None;
        }
        let start = place(c);
        let end = start + width(c);
        if end > bytes.len() {
            return None;
        }
        Some(read_number(&bytes[start..end]))
    }

    fn holds(c: u32, v: u32) -> bool {
        u64::from(v) < 256u64.pow(width(c) as u32)
    }

    fn write(bytes: &mut [u8], c: u32, v: u32) {
        if Self::has(bytes, c) && Self::holds(c, v) {
            write_cell(bytes, c, v);
        }
    }
}

// Writes the bytes of a cell.
#[tactic(auto, using(crate::proofs::Placed::bound))]
fn write_cell(bytes: &mut [u8], c: u32, v: u32)
    requires there { c < length (image_cells bytes.old) }
    requires fits { v < 256 ^ cellWidth c }
    ensures after { image_cells bytes.new ≡ slice_set (image_cells bytes.old) c v }
    ensures rest { image_rest bytes.new ≡ image_rest bytes.old }
{
    let at = place(c);
    let n = width(c);
    bytes[at..at + n].copy_from_slice(&v.to_be_bytes()[4 - n..]);
}
