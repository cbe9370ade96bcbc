// Clocks: what a clock means, the laws of all clocks, and the counter and the instant clock.
#![tactic(auto)]

mod counter;
mod instant;
mod laws;
mod time;

pub use counter::CounterClock;
pub use instant::InstantClock;
pub use laws::{pass_twice, set_over};
pub use time::{Clock, SettableClock};
