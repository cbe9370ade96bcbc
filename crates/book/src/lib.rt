// The book of a history, kept from the cells at the making and the calls alone: no meter, no answers, no tickets.
#![tactic(auto)]

mod cells;
mod time;

pub use cells::cells_after;
pub use time::clock_after;
