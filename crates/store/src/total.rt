ghost use Rattle.std.specs.Prelude.{◌≡◌, ℕ, ◌^◌, List, length, nat_lt, slice_get};
ghost use Rattle.store.specs.Cells.{put_cells};
ghost use Rattle.store.specs.Formats.{FormatLaws};

use crate::format::Format;

// A format that reads and writes at every cell and with every value: one function can look whether a cell is there and take
// what it holds. Its members are those of `Format` again: with a trait under both, who writes either would have one more to
// write. It is not named at the crate's root, so that `use store::*` brings one `count`.
pub trait TotalFormat {
    // What the memory is a slice of.
    type Unit: Copy;

    // The cells in a memory, and what lies past the last one.
    ghost cells: { List Self.Unit → List ℕ };

    ghost rest: { List Self.Unit → List ℕ };

    // The bytes of each cell.
    ghost width: { ℕ → ℕ };

    // The memory that some cells and what lies past them make.
    ghost made: { List ℕ → List ℕ → List Self.Unit };

    // No unit holds more than it can.
    ghost Held: { List Self.Unit → Type 0 };

    // What every format keeps of these.
    ghost laws: { FormatLaws cells width };

    // What holds of every memory: the cells and what lies past them are all of it. It does nothing: the check knows of a
    // slice that is passed on that each unit is one of its type.
    fn known(memory: &[Self::Unit])
        ensures each { Held memory.now }
        ensures whole { made (cells memory.now) (rest memory.now) ≡ memory.now };

    // The number of cells.
    fn count(memory: &[Self::Unit]) -> u32
        ensures { result ≡ length (cells memory.now) };

    // Whether the whole of a cell is there.
    fn has(memory: &[Self::Unit], c: u32) -> bool
        ensures { result ≡ nat_lt c (length (cells memory.now)) };

    // What a cell holds, if it is there.
    fn read(memory: &[Self::Unit], c: u32) -> Option<u32>
        ensures { result ≡ slice_get (cells memory.now) c };

    // Whether a cell is wide enough for a value.
    fn holds(c: u32, v: u32) -> bool
        ensures { result ≡ nat_lt v (256 ^ width c) };

    // Makes a cell a value, if it is there and holds the value.
    fn write(memory: &mut [Self::Unit], c: u32, v: u32)
        ensures after { cells memory.new ≡ put_cells (cells memory.old) width c v }
        ensures rest { rest memory.new ≡ rest memory.old };
}

// Every total format is a `Format`: `get` and `put` are its `read` and `write`.
impl<F: TotalFormat> Format for F {
    type Unit = F::Unit;

    ghost cells = { F.cells };

    ghost rest = { F.rest };

    ghost width = { F.width };

    ghost made = { F.made };

    ghost Held = { F.Held };

    ghost laws = { F.laws };

    fn known(memory: &[F::Unit]) {
        F::known(memory);
    }

    fn count(memory: &[F::Unit]) -> u32 {
        F::count(memory)
    }

    fn has(memory: &[F::Unit], c: u32) -> bool {
        F::has(memory, c)
    }

    fn read(memory: &[F::Unit], c: u32) -> u32 {
        Self::get(memory, c).unwrap()
    }

    fn holds(c: u32, v: u32) -> bool {
        F::holds(c, v)
    }

    fn write(memory: &mut [F::Unit], c: u32, v: u32) {
        Self::put(memory, c, v);
    }

    fn get(memory: &[F::Unit], c: u32) -> Option<u32> {
        F::read(memory, c)
    }

    fn put(memory: &mut [F::Unit], c: u32, v: u32) {
        F::write(memory, c, v);
    }
}
