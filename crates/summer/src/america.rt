ghost use Rattle.std.specs.Prelude.{◌≡◌, Decides};
ghost use Rattle.summer.specs.Laws.{AmericanSummer, america, america_from, america_until, standard_time};
ghost use Rattle.summer.specs.Months.{america_years};
ghost use Rattle.std.proofs.Common.{rules};

use crate::rule::SummerRule;
use crate::sundays::first_sunday;
use crate::yearly::{Yearly, in_force, next_change, zone_of};

// From 02:00 on the second Sunday of March until 01:00 on the first Sunday of November, local standard time.
#[derive(Clone, Copy)]
pub struct America;

impl Yearly for America {
    ghost from = { america_from };

    ghost until = { america_until };

    ghost ascending = { america_years };

    ghost moment = { standard_time };

    fn zone(offset: i32) -> i64 {
        zone_of(offset)
    }

    fn first(year: u32) -> i64 {
        (i64::from(first_sunday(12 * year as usize + 2)) + 7) * 86400 + 7200
    }

    fn last(year: u32) -> i64 {
        i64::from(first_sunday(12 * year as usize + 10)) * 86400 + 3600
    }
}

impl SummerRule for America {
    ghost in_force = { λ r. america };

    ghost zoned = { Prim.search rules };

    fn in_force(&self, offset: i32, second: u32) -> bool
        ensures answer { result ≡ america offset second }
        ensures lawful { Decides result (AmericanSummer offset second) }
    {
        in_force::<America>(offset, second)
    }

    fn next_change(&self, offset: i32, second: u32) -> Option<u32> {
        next_change::<America>(offset, second)
    }
}
