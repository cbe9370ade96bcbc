// Work orders: a string of commands, its form, and what its bytes say.
#![tactic(auto)]

mod command;
mod form;

pub use command::{Command, next_command};
pub use form::fault;
