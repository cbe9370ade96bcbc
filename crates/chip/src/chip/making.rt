ghost use Rattle.std.specs.Prelude.{◌≡◌, None};
ghost use Rattle.chip.specs.contracts.chip.CalendarChipClock.TheImpl.{ghosts as chip};

use crate::chip::CalendarChip;

impl CalendarChip {
    // A chip without a time.
    pub fn new() -> CalendarChip
        ensures answer { chip.meaning result ≡ (None, 0) }
    {
        CalendarChip { moment: None }
    }
}
