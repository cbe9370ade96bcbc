// Stores: a list of cells in handed-over memory, and the store of one cell to a word.
#![tactic(auto)]

mod entries;
mod entry;
mod format;
mod lent;
mod store;
pub mod total;
mod words;

pub use entries::put_each;
pub use entry::Entry;
pub use format::Format;
pub use lent::{LentStore, put_in};
pub use store::Store;
pub use words::{WordStore, Words, cells_in};
