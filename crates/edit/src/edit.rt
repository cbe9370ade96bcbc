ghost use Rattle.std.specs.Prelude.{◌≡◌, ◌≤◌, length};
ghost use Rattle.edit.specs.Drafts.{Fits};

use store::Entry;

// The cells of one edit, at most.
pub(crate) const MOST: usize = 64;

// The recorded entries, each of which fits every store, and whether they were checked since the last change.
// By a rule of the project a fixed table in a plain struct, without a heap.
#[derive(Clone, Copy)]
pub struct Edit {
    pub(crate) table: [Entry; 64],
    pub(crate) count: usize,
    pub(crate) checked: bool,
    ghost whole: { length table ≡ 64 },
    ghost few: { count ≤ 64 },
    ghost fits: { Fits count table },
}
