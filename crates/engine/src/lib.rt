// The engine: a clock, a store and a rule, and the edit that stands open.
#![tactic(auto)]

mod edits;
mod engine;
mod look;
mod ticket;
mod time;

pub use engine::Engine;
pub use look::tables_of;
pub use ticket::Ticket;
