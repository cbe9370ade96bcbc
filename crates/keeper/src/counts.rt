// How many months, dates and weekdays a row has, by which it ranks: the fewest months win, then dates, then weekdays.
#[derive(Clone, Copy, Drop, Default, PartialEq, Eq, PartialOrd, Ord)]
pub struct Counts {
    pub months: u8,
    pub dates: u8,
    pub weekdays: u8,
}
