// Work orders on an engine: the commands of an order in turn, up to the first refusal.
#![tactic(auto)]

mod lent;
mod printed;
mod running;
mod stopped;

pub use lent::run_on_image;
pub use running::run;
pub use stopped::Stopped;
