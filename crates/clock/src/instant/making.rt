ghost use Rattle.std.specs.Prelude.{◌≡◌, Some};
ghost use Rattle.clock.specs.contracts.instant.InstantClockClock.TheImpl.{ghosts as instant};

use crate::instant::InstantClock;

impl InstantClock {
    // A clock that shows the second until any time passes.
    pub fn new(second: u32) -> InstantClock
        ensures answer { instant.meaning result ≡ (Some second, 0) }
    {
        InstantClock::from(Some(second))
    }
}

// A clock that shows the second, where there is one.
impl From<Option<u32>> for InstantClock {
    ghost from_gives = { λ second clock. instant.meaning clock ≡ (second, 0) };

    fn from(second: Option<u32>) -> InstantClock {
        InstantClock { second }
    }
}
