ghost use Rattle.std.specs.Prelude.{◌≤◌};
ghost use Rattle.calendar.specs.Months.{length_of};
ghost use Rattle.chip.specs.Moment.{Within};

mod reckoning;

// The first second of 2000 and the last of 2099.
pub const FIRST: u32 = 946_684_800;

pub const LAST: u32 = 4_102_444_799;

// A date and time of these years, in UTC.
#[derive(Clone, Copy)]
pub struct Moment {
    year: u16,
    month: u8,
    day: u8,
    hour: u8,
    minute: u8,
    second: u8,
    ghost years: { Within 2000 year 2099 },
    ghost months: { Within 1 month 12 },
    ghost days: { Within 1 day (length_of year month) },
    ghost hours: { hour ≤ 23 },
    ghost minutes: { minute ≤ 59 },
    ghost seconds: { second ≤ 59 },
}
