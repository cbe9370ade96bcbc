// Two general words, the least later number with a property and the first best of a list, and the keeper of the best.
#![tactic(auto)]

mod choice;
mod counts;
mod keeper;
mod offer;
mod rank;

pub use choice::best_of;
pub use counts::Counts;
pub use keeper::Keeper;
pub use offer::Offer;
pub use rank::Rank;
