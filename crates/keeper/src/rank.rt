ghost use Rattle.std.specs.Ordering.{is_lt};
ghost use Rattle.std.specs.Prelude.{◌≡◌, true, false};
ghost use Rattle.std.proofs.Common.{rules};

use crate::counts::Counts;
use std::cmp::Reverse;

// A rank, whose order is total: where neither of two ranks is less, they are the same.
pub trait Rank: Ord {
    ghost irreflexive: { (x : Self) → is_lt (Self.cmp x x) ≡ false };

    ghost transitive: { (x y z : Self) → is_lt (Self.cmp x y) ≡ true → is_lt (Self.cmp y z) ≡ true → is_lt (Self.cmp x z) ≡ true };

    ghost total: { (x y : Self) → is_lt (Self.cmp x y) ≡ false → is_lt (Self.cmp y x) ≡ false → x ≡ y };
}

// The counts of a row: the fewest months first, then dates, then weekdays.
impl Rank for Counts {
    ghost irreflexive = { Prim.search rules };

    ghost transitive = { Prim.search rules };

    ghost total = { Prim.search rules };
}

// The minute of an event: the later first.
impl Rank for Reverse<u16> {
    ghost irreflexive = { Prim.search rules };

    ghost transitive = { Prim.search rules };

    ghost total = { Prim.search rules };
}

// The second of a boundary: the earlier first.
impl Rank for u32 {
    ghost irreflexive = { Prim.search rules };

    ghost transitive = { Prim.search rules };

    ghost total = { Prim.search rules };
}
