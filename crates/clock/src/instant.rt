ghost use Rattle.std.specs.Prelude.{◌≤◌};
ghost use Rattle.std.specs.Option.{unwrap_or};
ghost use Rattle.clock.specs.Time.{final_second};
ghost use Rattle.std.proofs.Common.{rules, arith};

use crate::time::Clock;

mod making;

// One second, which it vouches for and no further; it cannot be set.
#[derive(Clone, Copy)]
pub struct InstantClock {
    second: Option<u32>,
    ghost fits: { unwrap_or second 0 ≤ final_second },
}

impl Clock for InstantClock {
    ghost meaning = { λ c. (c.second, 0) };

    ghost sound = { first_of (Prim.search rules, Prim.grind (arith, Self.row.coded.inj)) };

    fn read(&self) -> Option<u32> {
        self.second
    }

    fn pass(&mut self, n: u32) {
        if n > 0 {
            self.second = None;
        }
    }
}
