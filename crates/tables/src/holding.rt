ghost use Rattle.tables.specs.Cells.{events_of};
ghost use Rattle.tables.specs.Filled.{timetable_in};
ghost use Rattle.std.specs.Prelude.{◌≡◌};

use crate::event::Event;
use crate::row::Row;
use crate::tables::Tables;

impl Tables {
    // The rows that count, in ascending number.
    pub fn rows(&self) -> &[Row]
        ensures answer { result.now ≡ (timetable_in self.now).rows }
    {
        self.rows.as_slice()
    }

    // The events of a plan that count, in ascending number; a plan that there is not has none.
    #[tactic(auto, unfolding(crate::specs::Cells::events_of))]
    pub fn events_of(&self, plan: u8) -> &[Event]
        ensures answer { result.now ≡ events_of (timetable_in self.now) plan }
    {
        match self.plans.get(usize::from(plan)) {
            Some(events) => events.as_slice(),
            None => &[],
        }
    }
}
