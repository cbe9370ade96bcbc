ghost use Rattle.std.specs.Prelude.{◌≡◌, ◌+◌, ◌<◌, ◌≤◌, None};
ghost use Rattle.clock.specs.Laws.{PassLaws, SetLaws};
ghost use Rattle.clock.specs.Setting.{adjusted, set_answer};
ghost use Rattle.clock.specs.Time.{final_second, passed};

use crate::time::{Clock, SettableClock};
use refusal::Refusal;

// Lets a seconds pass and then b, which is to let a + b seconds pass.
pub fn pass_twice<C: Clock>(c: &mut C, a: u32, b: u32)
    ensures after { C.meaning c.new ≡ passed (C.meaning c.old) (a + b) }
    ensures beyond { final_second < a + b → (C.meaning c.new).0 ≡ None }
    ensures laws { PassLaws }
{
    c.pass(a);
    c.pass(b);
}

// Sets the clock, and then again: where that is accepted, the first time is forgotten.
pub fn set_over<C: SettableClock>(c: &mut C, earlier: u32, s: u32) -> Result<(), Refusal>
    ensures answer { result ≡ set_answer C.kind s }
    ensures after { C.meaning c.new ≡ adjusted C.kind (adjusted C.kind (C.meaning c.old) earlier) s }
    ensures forgets { C.kind.first ≤ s → s ≤ C.kind.last → C.meaning c.new ≡ adjusted C.kind (C.meaning c.old) s }
    ensures laws { SetLaws C.kind }
{
    let _ = c.set(earlier);
    c.set(s)
}
