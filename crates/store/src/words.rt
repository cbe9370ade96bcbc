ghost use Rattle.layout.specs.Layout.{cell_count};
ghost use Rattle.std.specs.Prelude.{◌≡◌, ◌≤◌, ◌++◌, length};
ghost use Rattle.store.specs.Laws.{word_laws};
ghost use Rattle.store.specs.Words.{Words as EachWord, word_cells, word_rest, word_width};

use crate::lent::LentStore;
use crate::total::TotalFormat;
use layout::CELLS;

// One cell in each word of a memory.
pub enum Words {}

pub type WordStore<'a> = LentStore<'a, Words>;

impl TotalFormat for Words {
    type Unit = u32;

    ghost cells = { word_cells };

    ghost rest = { word_rest };

    ghost width = { word_width };

    ghost made = { λ cs rest. cs ++ rest };

    ghost Held = { EachWord };

    ghost laws = { word_laws };

    #[tactic(auto, using(crate::proofs::Fronts::front_whole))]
    fn known(_memory: &[u32]) {}

    fn count(memory: &[u32]) -> u32 {
        cells_in(memory).len() as u32
    }

    fn has(memory: &[u32], c: u32) -> bool {
        (c as usize) < cells_in(memory).len()
    }

    fn read(memory: &[u32], c: u32) -> Option<u32> {
        cells_in(memory).get(c as usize).copied()
    }

    // A word holds every value.
    fn holds(_c: u32, _v: u32) -> bool {
        true
    }

    #[tactic(auto, using(crate::proofs::Fronts::fronts))]
    fn write(memory: &mut [u32], c: u32, v: u32) {
        if Self::has(memory, c) {
            memory[c as usize] = v;
        }
    }
}

// The words that are cells.
#[tactic(auto, using(std::proofs::lemmas::List::take_min), unfolding(crate::specs::Words::word_cells))]
pub fn cells_in(memory: &[u32]) -> &[u32]
    ensures answer { result.now ≡ word_cells memory.now }
    ensures few { length result.now ≤ cell_count }
{
    &memory[..(CELLS as usize).min(memory.len())]
}
