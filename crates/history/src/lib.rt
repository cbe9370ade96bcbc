// Any history of a meter: its calls in any order, the failing ones among them, and the book of them.
#![tactic(auto)]

mod calls;
mod living;
mod printed;
mod telling;
mod ticket;

pub use calls::{Answer, Call};
pub use living::{live, perform};
