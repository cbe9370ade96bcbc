ghost use Rattle.history.specs.Book.{moved, moves, tick};
ghost use Rattle.std.specs.Prelude.{◌≡◌};

use clock::SettableClock;
use history::Call;

// The clock after the Sets and the Passes of a history.
pub fn clock_after<C: SettableClock>(clock: C, calls: &[Call]) -> C
    ensures { C.meaning result ≡ moved C.kind (C.meaning clock) (moves calls.now) }
{
    let mut after = clock;
    for call in calls {
        move_by(&mut after, *call);
    }
    after
}

// Only a Set and a Pass move a clock.
fn move_by<C: SettableClock>(clock: &mut C, call: Call)
    ensures { C.meaning clock.new ≡ tick C.kind (C.meaning clock.old) call.entry }
{
    match call {
        Call::Set(s) => {
            let _ = clock.set(s);
        }
        Call::Pass(n) => clock.pass(n),
        _ => {}
    }
}
