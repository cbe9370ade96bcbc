ghost use Rattle.reread.specs.Found.{cells_after, time_after};
ghost use Rattle.std.specs.Prelude.{◌≡◌, IfOk};
ghost use Rattle.store.specs.Words.{word_cells};

use book::{cells_after, clock_after};
use clock::{Clock, CounterClock};
use history::Call;
use image::decode;
use layers::Vouching;
use std::alloc::{AllocError, Global};

// The cells that a life leaves, from the image that it began with.
pub(crate) fn booked_cells(
    heap: Global,
    image: &[u8],
    calls: &[Call],
) -> Result<Vec<u32>, AllocError>
    ensures { IfOk result (λ v. word_cells v.items ≡ cells_after image.now calls.now) }
{
    let mut cells = decode(heap, image)?;
    cells_after(cells.as_mut_slice(), calls);
    Ok(cells)
}

// The time that a life leaves.
pub(crate) fn booked_time(calls: &[Call]) -> Option<u32>
    ensures { result ≡ time_after calls.now }
{
    let made = Vouching::new(CounterClock::new());
    clock_after(made, calls).read()
}
