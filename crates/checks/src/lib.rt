// The check of whole tables: four rules, and the first fault by rule and then by place.
#![tactic(auto)]

mod fault;
mod rules;

pub use fault::Fault;
pub use rules::first_fault;
