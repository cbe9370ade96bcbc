// Which tariff: the row, the event and the last second of a look, over plain copied tables.
#![tactic(auto)]

mod answer;
mod boundary;
mod choice;
mod day;
mod latest;
mod laws;
mod local_clock;
mod looking;
mod moment;
mod opening;
mod printed;
mod row_in_force;
mod shown;

pub use answer::Look;
pub use laws::{last_second_of, look_by_both, look_twice};
pub use looking::look;
