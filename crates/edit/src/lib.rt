// An edit: at most 64 recorded cells with their new values, and the mark of a good check.
#![tactic(auto)]

mod draft;
mod edit;
mod tables;

pub use edit::Edit;
pub use tables::copied;
