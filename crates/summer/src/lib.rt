// Summer time: what a rule means, and the three rules.
#![tactic(auto)]

mod america;
mod europe;
mod none;
mod rule;
mod sundays;
mod yearly;

pub use america::America;
pub use europe::Europe;
pub use none::NoSummer;
pub use rule::SummerRule;
