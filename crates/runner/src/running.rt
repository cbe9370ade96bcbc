ghost use Rattle.std.specs.Prelude.{◌≡◌, ◌-◌, ◌<◌, length, true, None};
ghost use Rattle.orders.specs.Form.{fault_of, reads_on};
ghost use Rattle.runner.specs.Run.{Ended, finish_answer, finish_state, placed, ran, ran_answer, stays_within};
ghost use Rattle.engine.specs.Book.{answer, step};
ghost use Rattle.engine.specs.Engines.{OnlyCells, OnlyEdit, state_of};

use crate::stopped::{Closing, Stopped};
use clock::Clock;
use engine::{Engine, Ticket};
use orders::{Command, fault, next_command};
use refusal::Refusal;
use store::Store;
use summer::SummerRule;

// The commands between Open and the closing one, of an order of this length, read from its tail: up to the first refusal.
fn perform<C: Clock, S: Store, R: SummerRule>(
    engine: &mut Engine<C, S, R>,
    t: &Ticket,
    len: usize,
    tail: &[u8],
) -> Result<Closing, Stopped>
    requires { (length tail.now < len) × (fault_of (reads_on (len - length tail.now) tail.now) ≡ None) }
    ensures ended { Ended (state_of S.cells engine.old) (reads_on (len - length tail.now) tail.now) result (state_of S.cells engine.new) }
    ensures same { OnlyEdit engine.old engine.new }
{
    let mut left = tail;
    loop {
        let place = len - left.len();
        let Some((command, next)) = next_command(left) else {
            unreachable()
        };
        match command {
            Command::Open => unreachable(),
            Command::Commit => return Ok(Closing::Commit(place)),
            Command::Discard => return Ok(Closing::Discard(place)),
            _ => placed(place, enter(engine, t, command))?,
        }
        left = next;
    }
}

// A command that neither opens nor closes an order.
fn enter<C: Clock, S: Store, R: SummerRule>(
    engine: &mut Engine<C, S, R>,
    t: &Ticket,
    command: Command,
) -> Result<(), Refusal>
    requires { stays_within command ≡ true }
    ensures answer { result ≡ answer (state_of S.cells engine.old) command }
    ensures after { state_of S.cells engine.new ≡ step (state_of S.cells engine.old) command }
    ensures same { OnlyEdit engine.old engine.new }
{
    match command {
        Command::Put(c, v) => engine.put(t, c, v),
        Command::Check => engine.check(),
        _ => unreachable(),
    }
}

// Runs a work order. Every way out spends the ticket of the edit that the run opened.
pub fn run<C: Clock, S: Store, R: SummerRule>(
    engine: &mut Engine<C, S, R>,
    order: &[u8],
) -> Result<(), Stopped>
    ensures answer { result ≡ ran_answer (state_of S.cells engine.old) order.now }
    ensures after { state_of S.cells engine.new ≡ ran (state_of S.cells engine.old) order.now }
    ensures same { OnlyCells S.memory engine.old engine.new }
{
    if let Some(place) = fault(order) {
        return Err(Stopped {
            place,
            why: Refusal::BadOrder,
        });
    }
    let Some((_, tail)) = next_command(order) else {
        unreachable()
    };
    let t = placed(0, engine.open())?;
    let ending = perform(engine, &t, order.len(), tail);
    finish(engine, t, ending)
}

// The closing command, or the discard after a refusal: each spends the ticket.
fn finish<C: Clock, S: Store, R: SummerRule>(
    engine: &mut Engine<C, S, R>,
    t: Ticket,
    ending: Result<Closing, Stopped>,
) -> Result<(), Stopped>
    ensures answer { result ≡ finish_answer (state_of S.cells engine.old) ending }
    ensures after { state_of S.cells engine.new ≡ finish_state (state_of S.cells engine.old) ending }
    ensures same { OnlyCells S.memory engine.old engine.new }
{
    match ending {
        Ok(Closing::Commit(place)) => placed(place, engine.commit(t)),
        Ok(Closing::Discard(place)) => placed(place, engine.discard(t)),
        Err(stopped) => {
            let _ = engine.discard(t);
            Err(stopped)
        }
    }
}

// A refusal with the place of its command.
fn placed<T>(place: usize, r: Result<T, Refusal>) -> Result<T, Stopped>
    ensures { result ≡ placed place r }
{
    r.map_err(|why| Stopped { place, why })
}
