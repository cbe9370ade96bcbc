ghost use Rattle.std.specs.Prelude.{◌≡◌, ℕ, ◌+◌, ◌≤◌};
ghost use Rattle.clock.specs.Setting.{Kind, adjusted, set_answer};
ghost use Rattle.clock.specs.Time.{Meaning, Sound, final_second, passed};

use refusal::Refusal;

// A clock means a time, a second or none, and a span, the further seconds that it vouches for.
pub trait Clock {
    ghost meaning: { Self → Meaning };

    fn read(&self) -> Option<u32>
        ensures answer { result ≡ (meaning self.now).0 };

    fn pass(&mut self, n: u32)
        ensures after { meaning self.new ≡ passed (meaning self.old) n };

    ghost sound: { (c : Self) → Sound (meaning c) };
}

// A clock that can be set. Its kind names the first and the last second that it accepts.
pub trait SettableClock: Clock {
    ghost kind: { Kind };

    fn first() -> u32
        ensures answer { result ≡ kind.first };

    fn last() -> u32
        ensures answer { result ≡ kind.last };

    fn set(&mut self, s: u32) -> Result<(), Refusal>
        ensures answer { result ≡ set_answer kind s }
        ensures after { Self.meaning self.new ≡ adjusted kind (Self.meaning self.old) s };

    ghost ends: { (s : ℕ) → kind.first ≤ s → s ≤ kind.last → s + kind.span_for s ≤ final_second };
}
