ghost use Rattle.std.specs.Prelude.{◌≡◌, ℕ, List, length};
ghost use Rattle.store.specs.Cells.{Memory, StoreLaws, get_answer, put_answer, put_cells};

use refusal::Refusal;

// A list of cells in handed-over memory.
pub trait Store {
    // The cells.
    ghost cells: { Self → List ℕ };

    // The bytes of each cell, the handed-over memory past the last one, and where it lies.
    ghost memory: { Self → Memory };

    // What every store keeps of these.
    ghost laws: { StoreLaws cells memory };

    // The number of cells.
    fn size(&self) -> u32
        ensures answer { result ≡ length (cells self.now) };

    // What a cell holds.
    fn get(&self, c: u32) -> Result<u32, Refusal>
        ensures answer { result ≡ get_answer (cells self.now) c };

    // Makes a cell a value, and changes nothing else.
    fn put(&mut self, c: u32, v: u32) -> Result<(), Refusal>
        ensures answer { result ≡ put_answer (cells self.old) (memory self.old).width c v }
        ensures after { cells self.new ≡ put_cells (cells self.old) (memory self.old).width c v }
        ensures same { memory self.new ≡ memory self.old };
}
