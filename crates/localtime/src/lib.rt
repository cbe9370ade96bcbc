// Local time: a second by an offset, the day and the second of the day on which it falls, and the weekday of a day.
#![tactic(auto)]

mod local;
mod weekdays;

pub use local::{day_number, local_time, time_of_day};
pub use weekdays::weekday;
