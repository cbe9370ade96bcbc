ghost use Rattle.engine.specs.Looks.{look_answer};
ghost use Rattle.tables.specs.Cells.{cell_at, timetable};
ghost use Rattle.tables.specs.Filled.{timetable_in};
ghost use Rattle.std.specs.Prelude.{◌≡◌};

use crate::engine::Engine;
use clock::Clock;
use edit::copied;
use refusal::Refusal;
use schedule::{Look, look};
use store::Store;
use summer::SummerRule;
use tables::Tables;

// The tables of a store's cells, made once for many looks.
#[tactic(auto, using(crate::proofs::Copies::copied_tables))]
pub fn tables_of<S: Store>(store: &S) -> Tables
    ensures { timetable_in result ≡ timetable (cell_at (S.cells store.now)) }
{
    Tables::new(&copied(store))
}

impl<C: Clock, S: Store, R: SummerRule> Engine<C, S, R> {
    // The eight fields at the clock's time, or a refusal without a time. It changes nothing.
    pub fn look(&self) -> Result<Look, Refusal>
        ensures { result ≡ look_answer (R.in_force self.now.rule) (S.cells self.now.store) (C.meaning self.now.clock).0 }
    {
        let second = self.clock.read().ok_or(Refusal::NoTime)?;
        Ok(look(&tables_of(&self.store), &self.rule, second))
    }
}
