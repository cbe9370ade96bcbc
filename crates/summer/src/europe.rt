ghost use Rattle.std.specs.Prelude.{◌≡◌, Decides, pos};
ghost use Rattle.summer.specs.Laws.{EuropeanSummer, europe, europe_from, europe_until};
ghost use Rattle.summer.specs.Months.{europe_years};
ghost use Rattle.std.proofs.Common.{rules};

use crate::rule::SummerRule;
use crate::sundays::last_sunday;
use crate::yearly::{Yearly, in_force, next_change};

// From 01:00 UTC on the last Sunday of March until 01:00 UTC on the last Sunday of October.
#[derive(Clone, Copy)]
pub struct Europe;

impl Yearly for Europe {
    ghost from = { europe_from };

    ghost until = { europe_until };

    ghost ascending = { europe_years };

    ghost moment = { λ o s. pos s };

    fn zone(offset: i32) -> i64 {
        0
    }

    fn first(year: u32) -> i64 {
        i64::from(last_sunday(12 * year as usize + 2)) * 86400 + 3600
    }

    fn last(year: u32) -> i64 {
        i64::from(last_sunday(12 * year as usize + 9)) * 86400 + 3600
    }
}

impl SummerRule for Europe {
    ghost in_force = { λ r. europe };

    ghost zoned = { Prim.search rules };

    fn in_force(&self, offset: i32, second: u32) -> bool
        ensures answer { result ≡ europe offset second }
        ensures lawful { Decides result (EuropeanSummer second) }
    {
        in_force::<Europe>(offset, second)
    }

    fn next_change(&self, offset: i32, second: u32) -> Option<u32> {
        next_change::<Europe>(offset, second)
    }
}
