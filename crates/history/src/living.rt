ghost use Rattle.std.specs.Prelude.{◌≡◌, ℕ, min, length, take, drop};
ghost use Rattle.history.specs.Book.{answer, step, tick};
ghost use Rattle.history.specs.History.{Lived, Turned, meaning};
ghost use Rattle.engine.specs.Engines.{opened, state_of};

use crate::calls::{Answer, Call};
use crate::ticket::{fresh_ticket, spend};
use clock::SettableClock;
use engine::{Engine, Ticket};
use refusal::Refusal;
use runner::run;
use store::Store;
use summer::SummerRule;

// An Open is told without its ticket, which is spent.
fn ticket_aside(r: Result<Ticket, Refusal>) -> Result<(), Refusal>
    ensures { result ≡ opened r }
{
    spend(r?);
    Ok(())
}

// Makes one call on an engine, and answers what it answered.
pub fn perform<C: SettableClock, S: Store, R: SummerRule>(
    engine: &mut Engine<C, S, R>,
    call: Call,
) -> Answer
    ensures answer { result ≡ answer C.kind (R.in_force engine.old.rule) (C.meaning engine.old.clock) (state_of S.cells engine.old) call.entry }
    ensures time { C.meaning engine.new.clock ≡ tick C.kind (C.meaning engine.old.clock) call.entry }
    ensures book { state_of S.cells engine.new ≡ step (state_of S.cells engine.old) call.entry }
    ensures rule { engine.new.rule ≡ engine.old.rule }
    ensures memory { S.memory engine.new.store ≡ S.memory engine.old.store }
    ensures turned { Turned C.kind (meaning C.meaning S.cells S.memory R.in_force engine.old) call.entry (meaning C.meaning S.cells S.memory R.in_force engine.new) result }
{
    match call {
        Call::Look => engine.look().into(),
        Call::Set(s) => engine.set(s).into(),
        Call::Pass(n) => {
            engine.pass(n);
            Answer::Done
        }
        Call::Get(c) => engine.get(c).into(),
        Call::Open => ticket_aside(engine.open()).into(),
        Call::Put(c, v) => {
            let ticket = fresh_ticket();
            let answer = engine.put(&ticket, c, v);
            spend(ticket);
            answer.into()
        }
        Call::Check => engine.check().into(),
        Call::Commit => engine.commit(fresh_ticket()).into(),
        Call::Discard => engine.discard(fresh_ticket()).into(),
        Call::Clear => engine.clear().into(),
        Call::Run(order) => run(engine, order).into(),
    }
}

// Makes the calls in turn while there is a place for the answer, and answers how many it made.
// The count and what stays are two equations: a record of them would take the same four arguments, here and at every other such function.
pub fn live<C: SettableClock, S: Store, R: SummerRule>(
    engine: &mut Engine<C, S, R>,
    calls: &[Call],
    answers: &mut [Answer],
) -> usize
    ensures answer { result ≡ min (length calls.now) (length answers.old) }
    ensures lived { Lived C.kind (meaning C.meaning S.cells S.memory R.in_force engine.old) (take result calls.now) (meaning C.meaning S.cells S.memory R.in_force engine.new) (take result answers.new) }
    ensures same { drop result answers.new ≡ drop result answers.old }
{
    let n = calls.len().min(answers.len());
    let made = &calls[..n];
    // By its place: of what a zip with iter_mut writes, a proof knows nothing. One such loop for any call would need a clause
    // over the steps of a closure that changes the engine, longer than the loop.
    for (place, call) in made.iter().enumerate() {
        answers[place] = perform(engine, *call);
    }
    n
}
