// Plain numbers here, since C has no enums with values.

// A date, or the refusal's number; that is 0 where there is a date.
#[repr(C)]
#[derive(Clone, Copy)]
pub struct Date {
    pub year: u16,
    pub month: u8,
    pub day: u8,
    pub refusal: u8,
}

// The eight fields of a look.
#[repr(C)]
#[derive(Clone, Copy, Default)]
pub struct Fields {
    pub local_time: i64,
    pub last_second: u32,
    pub row: u8,
    pub plan: u8,
    pub event_plan: u8,
    pub event: u8,
    pub days_back: u8,
    pub tariff: u8,
}

// How an order ended: a refusal's number with its place, and with 8 its rule and cell; or all 0.
#[repr(C)]
#[derive(Clone, Copy, Default)]
pub struct Outcome {
    pub place: usize,
    pub cell: u32,
    pub refusal: u8,
    pub rule: u8,
}

// A call of a life by its number, with its arguments; of a Run they are the begin and the end of its order.
#[repr(C)]
#[derive(Clone, Copy)]
pub struct Step {
    pub call: u32,
    pub first: u32,
    pub second: u32,
}

// What a call answered: how it ended, and the cell or the look that it told, or all 0.
#[repr(C)]
#[derive(Clone, Copy, Default)]
pub struct Told {
    pub outcome: Outcome,
    pub value: u32,
    pub look: Fields,
}
