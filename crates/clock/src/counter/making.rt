ghost use Rattle.std.specs.Prelude.{◌≡◌, None};
ghost use Rattle.clock.specs.contracts.counter.CounterClockClock.TheImpl.{ghosts as counter};

use crate::counter::CounterClock;

impl CounterClock {
    // A clock without a time.
    pub fn new() -> CounterClock
        ensures answer { counter.meaning result ≡ (None, 0) }
    {
        CounterClock { second: None }
    }
}
