ghost use Rattle.clock.specs.Setting.{adjusted, set_answer};
ghost use Rattle.clock.specs.Time.{passed};
ghost use Rattle.engine.specs.Engines.{OnlyTime};
ghost use Rattle.std.specs.Prelude.{◌≡◌};

use crate::engine::Engine;
use clock::{Clock, SettableClock};
use refusal::Refusal;
use store::Store;
use summer::SummerRule;

impl<C: Clock, S: Store, R: SummerRule> Engine<C, S, R> {
    // Lets seconds pass.
    pub fn pass(&mut self, n: u32)
        ensures after { C.meaning self.new.clock ≡ passed (C.meaning self.old.clock) n }
        ensures same { OnlyTime self.old self.new }
    {
        self.clock.pass(n);
    }
}

impl<C: SettableClock, S: Store, R: SummerRule> Engine<C, S, R> {
    // Sets the clock, where its kind accepts the second.
    pub fn set(&mut self, s: u32) -> Result<(), Refusal>
        ensures answer { result ≡ set_answer C.kind s }
        ensures after { C.meaning self.new.clock ≡ adjusted C.kind (C.meaning self.old.clock) s }
        ensures same { OnlyTime self.old self.new }
    {
        self.clock.set(s)
    }
}
