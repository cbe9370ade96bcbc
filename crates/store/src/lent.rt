ghost use Rattle.std.specs.Prelude.{◌≡◌, ℕ, [], ◌∷◌, length, nat_lt};
ghost use Rattle.store.specs.Entries.{puts_answer, puts_cells};
ghost use Rattle.store.specs.Laws.{lent_laws};

use crate::entries::put_each;
use crate::entry::Entry;
use crate::format::Format;
use crate::store::Store;
use refusal::Refusal;

// The cells in the memory lent to it.
#[derive(Drop)]
pub struct LentStore<'a, F: Format> {
    memory: &'a mut [F::Unit],
}

impl<'a, F: Format> LentStore<'a, F> {
    pub fn new(memory: &'a mut [F::Unit]) -> LentStore<'a, F>
        ensures answer { result.memory.now ≡ memory.old }
        ensures each { F.Held memory.old }
        ensures whole { F.made (F.cells memory.old) (F.rest memory.old) ≡ memory.old }
        ensures home { result.memory.ghost_name ≡ memory.entry.ghost_name }
    {
        F::known(memory);
        LentStore { memory }
    }

    // Hands the memory back: the cells, and what lies past them.
    pub fn into_memory(self) -> &'a mut [F::Unit]
        ensures same { result.now ≡ self.entry.memory.now }
        ensures memory { result.now ≡ F.made (F.cells self.entry.memory.now) (F.rest self.entry.memory.now) }
        ensures home { result.ghost_name ≡ self.entry.memory.ghost_name }
    {
        self.known();
        let LentStore { memory } = self;
        memory
    }

    // The cells and what lies past them are all of the memory.
    fn known(&self)
        ensures { F.made (F.cells self.now.memory.now) (F.rest self.now.memory.now) ≡ self.now.memory.now }
    {
        F::known(self.memory);
    }

    fn has(&self, c: u32) -> bool
        ensures { result ≡ nat_lt c (length (F.cells self.now.memory.now)) }
    {
        F::has(self.memory, c)
    }
}

impl<'a, F: Format> Store for LentStore<'a, F> {
    ghost cells = { λ s. F.cells s.memory.now };

    ghost memory = { λ s. record { width = F.width; rest = F.rest s.memory.now; home = s.memory.ghost_name ∷ [] } };

    ghost laws = { lent_laws F.laws (λ s. s.memory.now) (λ s. F.rest s.memory.now) (λ s. s.memory.ghost_name ∷ []) };

    fn size(&self) -> u32 {
        F::count(self.memory)
    }

    fn get(&self, c: u32) -> Result<u32, Refusal> {
        F::get(self.memory, c).ok_or(Refusal::NoCell)
    }

    fn put(&mut self, c: u32, v: u32) -> Result<(), Refusal> {
        if !self.has(c) {
            return Err(Refusal::NoCell);
        }
        if !F::holds(c, v) {
            return Err(Refusal::BadValue);
        }
        F::put(self.memory, c, v);
        Ok(())
    }
}

// Puts each entry into a memory: the lender knows afterwards all of it.
pub fn put_in<F: Format>(memory: &mut [F::Unit], entries: &[Entry]) -> Result<(), Refusal>
    ensures answer { result ≡ puts_answer (F.cells memory.old) F.width entries.now }
    ensures memory { memory.new ≡ F.made (puts_cells (F.cells memory.old) F.width entries.now) (F.rest memory.old) }
    ensures same { puts_cells (F.cells memory.old) F.width entries.now ≡ F.cells memory.old → memory.new ≡ memory.old }
{
    let mut store = LentStore::<F>::new(memory);
    let answer = put_each(&mut store, entries);
    store.known();
    answer
}
