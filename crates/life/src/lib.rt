// A meter's life as text, one call to a line, and its audit: the life lived on a meter, and read again in the archive.
#![tactic(auto)]

mod auditing;
mod reading;
mod report;
mod step;

pub use auditing::audit;
pub use reading::{Life, NotALife};
pub use step::Step;
