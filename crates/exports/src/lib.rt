// What a program in another language may call: rules, dates, looks, work orders and whole lives, on numbers and slices.
#![tactic(auto)]

mod crossing;
mod dates;
mod fields;
mod law;
mod lives;
mod looks;
mod rules;
mod work_orders;

pub use dates::{jezgwilon_date_of, jezgwilon_day_of};
pub use fields::{Date, Fields, Outcome, Step, Told};
pub use lives::jezgwilon_life;
pub use looks::{jezgwilon_look, jezgwilon_looks};
pub use rules::{jezgwilon_in_force, jezgwilon_next_change};
pub use work_orders::jezgwilon_run;
