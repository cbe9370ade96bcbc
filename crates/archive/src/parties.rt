ghost use Rattle.std.specs.Prelude.{◌≡◌, min, length, take, drop};
ghost use Rattle.clock.specs.Setting.{no_kind};
ghost use Rattle.history.specs.History.{meaning};
ghost use Rattle.archive.specs.Law.{Confirmed};
ghost use Rattle.archive.specs.Making.{begins};
ghost use Rattle.layers.specs.Unset.{unset_meaning};

use crate::parts::Parts;
use clock::{Clock, SettableClock};
use engine::Engine;
use history::{Answer, Call, live};
use layers::Unset;
use refusal::Refusal;
use schedule::Look;
use store::Store;
use summer::SummerRule;

// A meter after its history, a reader, and the look at either.
#[derive(Drop)]
pub struct Confirmation<C, S, R, D, T, Q> {
    pub count: usize,
    pub meter: Engine<C, S, R>,
    pub reader: Engine<D, T, Q>,
    pub shown: Result<Look, Refusal>,
    pub read: Result<Look, Refusal>,
}

impl<C: Clock, S: Store, R: SummerRule> Parts<C, S, R> {
    #[tactic(auto, using(crate::proofs::Making::made))]
    fn engine(self) -> Engine<C, S, R>
        ensures { meaning C.meaning S.cells S.memory R.in_force result ≡ begins C.meaning S.cells S.memory R.in_force self }
    {
        let Parts { clock, store, rule } = self;
        Engine::new(clock, store, rule)
    }
}

// A meter is made and lives a history, as far as there are places for its answers; a reader is made; both are looked at.
pub fn confirm<C: SettableClock, S: Store, R: SummerRule, D: Clock, T: Store, Q: SummerRule>(
    meter: Parts<C, S, R>,
    calls: &[Call],
    answers: &mut [Answer],
    reader: Parts<D, T, Q>,
) -> Confirmation<C, S, R, D, T, Q>
    ensures answer { result.count ≡ min (length calls.now) (length answers.old) }
    ensures law { Confirmed C.kind (begins C.meaning S.cells S.memory R.in_force meter) (take result.count calls.now) (meaning C.meaning S.cells S.memory R.in_force result.meter) (begins D.meaning T.cells T.memory Q.in_force reader) (take result.count answers.new) result.shown result.read }
    ensures reader { meaning D.meaning T.cells T.memory Q.in_force result.reader ≡ begins D.meaning T.cells T.memory Q.in_force reader }
    ensures same { drop result.count answers.new ≡ drop result.count answers.old }
{
    let mut meter = meter.engine();
    let count = live(&mut meter, calls, answers);
    let reader = reader.engine();
    let shown = meter.look();
    let read = reader.look();
    Confirmation {
        count,
        meter,
        reader,
        shown,
        read,
    }
}

// The same for a clock that cannot be set: a Set is refused.
pub fn confirm_unset<C: Clock, S: Store, R: SummerRule, D: Clock, T: Store, Q: SummerRule>(
    meter: Parts<C, S, R>,
    calls: &[Call],
    answers: &mut [Answer],
    reader: Parts<D, T, Q>,
) -> Confirmation<Unset<C>, S, R, D, T, Q>
    ensures answer { result.count ≡ min (length calls.now) (length answers.old) }
    ensures law { Confirmed no_kind (begins C.meaning S.cells S.memory R.in_force meter) (take result.count calls.now) (meaning (unset_meaning C.meaning) S.cells S.memory R.in_force result.meter) (begins D.meaning T.cells T.memory Q.in_force reader) (take result.count answers.new) result.shown result.read }
    ensures reader { meaning D.meaning T.cells T.memory Q.in_force result.reader ≡ begins D.meaning T.cells T.memory Q.in_force reader }
    ensures same { drop result.count answers.new ≡ drop result.count answers.old }
{
    let Parts { clock, store, rule } = meter;
    let unset = Parts {
        clock: Unset::new(clock),
        store,
        rule,
    };
    confirm(unset, calls, answers, reader)
}
