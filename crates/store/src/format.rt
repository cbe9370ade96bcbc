ghost use Rattle.std.specs.Prelude.{◌≡◌, ℕ, ◌^◌, ◌<◌, List, length, nat_lt, slice_get, slice_index, slice_set};
ghost use Rattle.store.specs.Cells.{put_cells};
ghost use Rattle.store.specs.Formats.{FormatLaws};

// How cells lie in a memory.
pub trait Format {
    // What the memory is a slice of.
    type Unit: Copy;

    // The cells in a memory, and what lies past the last one.
    ghost cells: { List Self.Unit → List ℕ };

    ghost rest: { List Self.Unit → List ℕ };

    // The bytes of each cell.
    ghost width: { ℕ → ℕ };

    // The memory that some cells and what lies past them make.
    ghost made: { List ℕ → List ℕ → List Self.Unit };

    // No unit holds more than it can.
    ghost Held: { List Self.Unit → Type 0 };

    // What every format keeps of these.
    ghost laws: { FormatLaws cells width };

    // What holds of every memory: the cells and what lies past them are all of it. It does nothing: the check knows of a
    // slice that is passed on that each unit is one of its type.
    fn known(memory: &[Self::Unit])
        ensures each { Held memory.now }
        ensures whole { made (cells memory.now) (rest memory.now) ≡ memory.now };

    // The number of cells.
    fn count(memory: &[Self::Unit]) -> u32
        ensures { result ≡ length (cells memory.now) };

    // Whether the whole of a cell is there.
    fn has(memory: &[Self::Unit], c: u32) -> bool
        ensures { result ≡ nat_lt c (length (cells memory.now)) };

    // What a cell that is there holds.
    fn read(memory: &[Self::Unit], c: u32) -> u32
        requires { c < length (cells memory.now) }
        ensures { result ≡ slice_index (cells memory.now) c };

    // Whether a cell is wide enough for a value.
    fn holds(c: u32, v: u32) -> bool
        ensures { result ≡ nat_lt v (256 ^ width c) };

    // Makes a cell that is there a value that it holds.
    fn write(memory: &mut [Self::Unit], c: u32, v: u32)
        requires there { c < length (cells memory.old) }
        requires fits { v < 256 ^ width c }
        ensures after { cells memory.new ≡ slice_set (cells memory.old) c v }
        ensures rest { rest memory.new ≡ rest memory.old };

    // What a cell holds, if it is there.
    fn get(memory: &[Self::Unit], c: u32) -> Option<u32>
        ensures { result ≡ slice_get (cells memory.now) c }
    {
        if Self::has(memory, c) {
            Some(Self::read(memory, c))
        } else {
            None
        }
    }

    // Makes a cell a value, if it is there and holds the value.
    fn put(memory: &mut [Self::Unit], c: u32, v: u32)
        ensures after { cells memory.new ≡ put_cells (cells memory.old) width c v }
        ensures rest { rest memory.new ≡ rest memory.old }
    {
        if Self::has(memory, c) && Self::holds(c, v) {
            Self::write(memory, c, v);
        }
    }
}
