ghost use Rattle.std.specs.Prelude.{◌≡◌, min, length, take, drop, None};
ghost use Rattle.history.specs.History.{meaning};
ghost use Rattle.exports.specs.Lives.{Acted, call_of, calls_of, kind_at, LifeOn, part_of, Same};

use crate::fields::{Step, Told};
use chip::CalendarChip;
use clock::{CounterClock, SettableClock};
use engine::Engine;
use history::{Call, perform};
use image::ImageStore;
use layers::Vouching;
use store::Store;
use summer::{Europe, SummerRule};

// The call of a step. A Run has the bytes between its two numbers; where there are none such it has no bytes.
fn call_of<'a>(step: Step, orders: &'a [u8]) -> Call<'a>
    ensures { Same result (call_of orders.now step) }
{
    match step.call {
        1 => Call::Set(step.first),
        2 => Call::Pass(step.first),
        3 => Call::Get(step.first),
        4 => Call::Open,
        5 => Call::Put(step.first, step.second),
        6 => Call::Check,
        7 => Call::Commit,
        8 => Call::Discard,
        9 => Call::Clear,
        10 => Call::Run(part(orders, step.first as usize, step.second as usize)),
        _ => Call::Look,
    }
}

fn part<'a>(orders: &'a [u8], from: usize, to: usize) -> &'a [u8]
    ensures { result.now ≡ part_of orders.now from to }
{
    orders.get(from..to).unwrap_or(&[])
}

// The calls in turn, as far as there are places for what is told of them.
// Steps, orders and answers stay three slices, as C passes them: a struct would be made of them once and taken apart once.
fn live_each<C: SettableClock, S: Store, R: SummerRule>(
    engine: &mut Engine<C, S, R>,
    steps: &[Step],
    orders: &[u8],
    answers: &mut [Told],
) -> usize
    ensures answer { result ≡ min (length steps.now) (length answers.old) }
    ensures acted { Acted C.kind (meaning C.meaning S.cells S.memory R.in_force engine.old) (calls_of orders.now (take result steps.now)) (meaning C.meaning S.cells S.memory R.in_force engine.new) (take result answers.new) }
    ensures same { drop result answers.new ≡ drop result answers.old }
{
    let n = steps.len().min(answers.len());
    let made = &steps[..n];
    // By its place: of what a zip with iter_mut writes, a proof knows nothing.
    for (place, step) in made.iter().enumerate() {
        answers[place] = Told::from(perform(engine, call_of(*step, orders)));
    }
    n
}

// A life by a clock that is made without a time. The memory is handed back, for its lender to know what it
// holds: let go in the same function, it is unknown afterwards.
fn lived<'a, C: SettableClock + Drop>(
    clock: C,
    image: &'a mut [u8],
    steps: &[Step],
    orders: &[u8],
    answers: &mut [Told],
) -> (usize, &'a mut [u8])
    ensures answer { result.0 ≡ min (length steps.now) (length answers.old) }
    ensures life { C.meaning clock ≡ (None, 0) → LifeOn C.kind image.old (calls_of orders.now (take result.0 steps.now)) (take result.0 answers.new) result.1.now }
    ensures same { drop result.0 answers.new ≡ drop result.0 answers.old }
    ensures home { result.1.ghost_name ≡ image.entry.ghost_name }
{
    let mut engine = Engine::new(clock, ImageStore::new(image), Europe);
    let n = live_each(&mut engine, steps, orders, answers);
    let (_, store, _) = engine.into_parts();
    (n, store.into_memory())
}

fn lived_on<C: SettableClock + Drop>(
    clock: C,
    image: &mut [u8],
    steps: &[Step],
    orders: &[u8],
    answers: &mut [Told],
) -> usize
    ensures answer { result ≡ min (length steps.now) (length answers.old) }
    ensures life { C.meaning clock ≡ (None, 0) → LifeOn C.kind image.old (calls_of orders.now (take result steps.now)) (take result answers.new) image.new }
    ensures same { drop result answers.new ≡ drop result answers.old }
{
    let (n, _image) = lived(clock, image, steps, orders, answers);
    n
}

// Lives a life under the European law, as far as there are places for its answers, and answers how many calls that are.
// Clock 1 is a chip, 2 a layer over a chip, 3 a layer over a counter, every other a counter.
#[unsafe(no_mangle)]
pub extern "C" fn jezgwilon_life(
    image: &mut [u8],
    clock: u8,
    steps: &[Step],
    orders: &[u8],
    answers: &mut [Told],
) -> usize
    ensures answer { result ≡ min (length steps.now) (length answers.old) }
    ensures life { LifeOn (kind_at clock) image.old (calls_of orders.now (take result steps.now)) (take result answers.new) image.new }
    ensures same { drop result answers.new ≡ drop result answers.old }
{
    match clock {
        1 => lived_on(CalendarChip::new(), image, steps, orders, answers),
        2 => lived_on(
            Vouching::new(CalendarChip::new()),
            image,
            steps,
            orders,
            answers,
        ),
        3 => lived_on(
            Vouching::new(CounterClock::new()),
            image,
            steps,
            orders,
            answers,
        ),
        _ => lived_on(CounterClock::new(), image, steps, orders, answers),
    }
}
