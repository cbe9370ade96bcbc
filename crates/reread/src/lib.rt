// A life lived on a meter, and read again in the archive by the book of it alone.
#![tactic(auto)]

mod booked;
mod examining;
mod parties;

pub use examining::{Findings, examine};
