use keeper::Counts;

// A row: its number, its masks as the cells have them, its plan, and how many months, dates and weekdays it has.
#[derive(Clone, Copy, Drop, Default)]
pub struct Row {
    pub number: u8,
    pub months: u32,
    pub weekdays: u32,
    pub dates: u32,
    pub plan: u8,
    pub counts: Counts,
}
