ghost use Rattle.tables.specs.Cells.{InZone};

use crate::list::{DayPlan, Rows};

// What looks go by, copied once from the cells: the zone's offset, whether summer time is on, the counting rows, and the counting events of each plan; plan 0 has none.
// No impl Model, so that they stay Copy: a timetable forgets what stands in the free places.
#[derive(Clone, Copy, Drop)]
pub struct Tables {
    pub offset: i32,
    pub summer: bool,
    pub(crate) rows: Rows,
    pub(crate) plans: [DayPlan; 17],
    ghost zone: { InZone offset },
}
