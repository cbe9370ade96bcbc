ghost use Rattle.checks.specs.Words.{reading};
ghost use Rattle.std.specs.Prelude.{◌≡◌};

use layout::Cells;
use std::array;
use store::Store;

// A cell, or 0 past the size. By itself, since with it in the closure of `from_fn` the goal `returns` stayed open.
fn cell_or_zero<S: Store>(store: &S, c: u32) -> u32
    ensures { result ≡ reading (S.cells store.now) c }
{
    store.get(c).unwrap_or(0)
}

// A store's cells, copied; a cell past the size reads 0.
pub fn copied<S: Store>(store: &S) -> Cells
    ensures { reading result ≡ reading (S.cells store.now) }
{
    array::from_fn(|c| cell_or_zero(store, c as u32))
}
