use tables::Tariff;

// What is shown at a second, and the last second up to which all but local time stays.
#[derive(Clone, Copy, Drop, PartialEq, Eq, Debug)]
pub struct Look {
    pub local_time: i64,
    pub row: u8,
    pub plan: u8,
    pub event_plan: u8,
    pub event: u8,
    pub days_back: u8,
    pub tariff: Tariff,
    pub last_second: u32,
}
