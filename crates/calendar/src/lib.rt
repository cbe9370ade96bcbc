// The Gregorian calendar of the meter: the table of month firsts, day numbers and dates.
#![tactic(auto)]

mod dates;
mod months;

pub use dates::{date_of, date_through_day, day_of, day_through_date};
pub use months::{month_first, month_firsts};
