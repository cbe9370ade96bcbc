// The number of a tariff.
pub type Tariff = u8;

// An event of a plan: its number, the minute of the day at which it starts, and its tariff.
#[derive(Clone, Copy, Drop, Default)]
pub struct Event {
    pub number: u8,
    pub minute: u16,
    pub tariff: Tariff,
}
