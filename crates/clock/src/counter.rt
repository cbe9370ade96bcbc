ghost use Rattle.std.specs.Prelude.{◌≡◌, ◌≤◌};
ghost use Rattle.std.specs.Option.{unwrap_or};
ghost use Rattle.clock.specs.Setting.{counter_kind};
ghost use Rattle.clock.specs.Time.{final_second, until};
ghost use Rattle.std.proofs.Common.{rules, arith};

use crate::time::{Clock, SettableClock};
use refusal::Refusal;

mod making;

// Counts the seconds in one number, up to the last that 32 bits hold.
#[derive(Drop)]
pub struct CounterClock {
    second: Option<u32>,
    ghost fits: { unwrap_or second 0 ≤ final_second },
}

impl Clock for CounterClock {
    ghost meaning = { λ c. until final_second c.second };

    ghost sound = { first_of (Prim.search rules, Prim.grind (arith, Self.row.coded.inj)) };

    fn read(&self) -> Option<u32> {
        self.second
    }

    fn pass(&mut self, n: u32) {
        if let Some(t) = self.second {
            self.second = t.checked_add(n);
        }
    }
}

impl SettableClock for CounterClock {
    ghost kind = { counter_kind };

    ghost ends = { first_of (Prim.search rules, Prim.grind (arith, Self.row.coded.inj)) };

    fn first() -> u32 {
        0
    }

    fn last() -> u32 {
        u32::MAX
    }

    fn set(&mut self, s: u32) -> Result<(), Refusal> {
        self.second = Some(s);
        Ok(())
    }
}
