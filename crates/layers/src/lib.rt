// Clocks over clocks: the layer that vouches for a limited time, and a clock kept from being set.
#![tactic(auto)]

mod unset;
mod vouching;

pub use unset::Unset;
pub use vouching::Vouching;
