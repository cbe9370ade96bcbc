// The calendar chip: a clock that keeps a date and a time of day, in UTC.
#![tactic(auto)]

mod chip;
mod moment;

pub use chip::CalendarChip;
