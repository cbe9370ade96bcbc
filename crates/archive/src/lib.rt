// The archive: what a meter after any history and a reader over the same cells show, and for how long.
#![tactic(auto)]

mod parties;
mod parts;

pub use parties::{Confirmation, confirm, confirm_unset};
pub use parts::Parts;
