ghost use Rattle.chip.specs.Chip.{chip_kind, chip_meaning};
ghost use Rattle.chip.specs.ChipTimeLemmas;
ghost use Rattle.std.proofs.Common.{rules};

use crate::moment::{FIRST, LAST, Moment};
use clock::{Clock, SettableClock};
use refusal::Refusal;

mod making;

// Keeps a date and time of 2000 to 2099 in UTC, or none.
#[derive(Drop)]
pub struct CalendarChip {
    moment: Option<Moment>,
}

impl Clock for CalendarChip {
    ghost meaning = { λ c. chip_meaning c.moment };

    ghost sound = { λ c. ChipTimeLemmas.sound c.moment };

    fn read(&self) -> Option<u32> {
        Some(self.moment?.second())
    }

    fn pass(&mut self, n: u32) {
        if let Some(moment) = self.moment {
            self.moment = moment.later(n);
        }
    }
}

impl SettableClock for CalendarChip {
    ghost kind = { chip_kind };

    ghost ends = { Prim.search rules };

    fn first() -> u32 {
        FIRST
    }

    fn last() -> u32 {
        LAST
    }

    fn set(&mut self, s: u32) -> Result<(), Refusal> {
        self.moment = Some(Moment::try_from(s)?);
        Ok(())
    }
}
