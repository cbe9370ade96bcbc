// Every refusal of the tariff clock, with its number and its words.
#![tactic(auto)]

mod refusal;
mod rule;
mod shown;

pub use refusal::Refusal;
pub use rule::Rule;
