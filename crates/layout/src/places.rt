ghost use Rattle.layout.specs.Layout.{cell_count, image_size, place_of};
ghost use Rattle.std.specs.Prelude.{◌≡◌, ◌*◌, ◌≤◌};

use crate::cells::{EVENTS, PLANS, ROWS};

// The bytes of a row and of an event.
const ROW_BYTES: usize = 8;

const EVENT_BYTES: usize = 3;

// The bytes of a full image: zone and summer time, the rows, the events of the plans.
pub const IMAGE_BYTES: usize = 5
    + ROWS as usize * ROW_BYTES
    + PLANS as usize * EVENTS as usize * EVENT_BYTES;

// The place of a cell's first byte: as many bytes as the cells before it have.
#[tactic(auto, using(crate::proofs::Closed::place_is, crate::proofs::Closed::full))]
pub fn place(c: u32) -> usize
    ensures answer { result ≡ place_of c }
    ensures most { result ≤ 4 * c }
    ensures full { place_of cell_count ≡ image_size }
{
    let c = c as usize;
    if c < 2 {
        4 * c
    } else if c < 130 {
        let row = 5 + ROW_BYTES * ((c - 2) / 4);
        match (c - 2) % 4 {
            0 => row,
            1 => row + 2,
            2 => row + 3,
            _ => row + 7,
        }
    } else {
        261 + EVENT_BYTES * ((c - 130) / 3) + (c - 130) % 3
    }
}
