ghost use Rattle.std.specs.Prelude.{◌≡◌, Some};
ghost use Rattle.layers.specs.Vouching.{layer_meaning, vouched, vouched_kind, vouched_seconds};
ghost use Rattle.std.proofs.Common.{rules};

use clock::{Clock, SettableClock};
use refusal::Refusal;

// The seconds that a layer vouches for: 395 days.
const VOUCHED: u32 = 395 * 86_400;

// A clock over any clock, which vouches for 395 days from its making and from each accepted Set.
#[derive(Drop)]
pub struct Vouching<C> {
    lower: C,
    // what is left of these days in seconds, none once they have run out
    left: Option<u32>,
}

impl<C: Clock> Vouching<C> {
    // A layer that vouches for all its days from now on.
    pub fn new(lower: C) -> Vouching<C>
        ensures answer { layer_meaning C.meaning result ≡ vouched (C.meaning lower) (Some vouched_seconds) }
    {
        Vouching {
            lower,
            left: Some(VOUCHED),
        }
    }
}

impl<C: Clock> Clock for Vouching<C> {
    ghost meaning = { layer_meaning C.meaning };

    ghost sound = { Prim.search rules };

    fn read(&self) -> Option<u32> {
        self.left?;
        self.lower.read()
    }

    fn pass(&mut self, n: u32) {
        self.lower.pass(n);
        if let Some(left) = self.left {
            self.left = left.checked_sub(n);
        }
    }
}

impl<C: SettableClock> SettableClock for Vouching<C> {
    ghost kind = { vouched_kind C.kind };

    ghost ends = { Prim.search rules };

    fn first() -> u32 {
        C::first()
    }

    fn last() -> u32 {
        C::last()
    }

    fn set(&mut self, s: u32) -> Result<(), Refusal> {
        self.lower.set(s)?;
        self.left = Some(VOUCHED);
        Ok(())
    }
}
