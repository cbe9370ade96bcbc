ghost use Rattle.clock.specs.Setting.{no_kind};
ghost use Rattle.layers.specs.Unset.{unset_meaning};
ghost use Rattle.std.specs.Prelude.{◌≡◌};
ghost use Rattle.std.proofs.Common.{rules};

use clock::{Clock, SettableClock};
use refusal::Refusal;

// Any clock as one that accepts no second: its histories have no Set that is accepted.
#[derive(Drop)]
pub struct Unset<C> {
    clock: C,
}

impl<C: Clock> Unset<C> {
    pub fn new(clock: C) -> Unset<C>
        ensures answer { unset_meaning C.meaning result ≡ C.meaning clock }
    {
        Unset { clock }
    }
}

impl<C: Clock> Clock for Unset<C> {
    ghost meaning = { unset_meaning C.meaning };

    ghost sound = { Prim.search rules };

    fn read(&self) -> Option<u32> {
        self.clock.read()
    }

    fn pass(&mut self, n: u32) {
        self.clock.pass(n);
    }
}

impl<C: Clock> SettableClock for Unset<C> {
    ghost kind = { no_kind };

    ghost ends = { Prim.search rules };

    fn first() -> u32 {
        1
    }

    fn last() -> u32 {
        0
    }

    fn set(&mut self, s: u32) -> Result<(), Refusal> {
        Err(Refusal::TimeNotTaken)
    }
}
