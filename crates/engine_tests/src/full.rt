use crate::sample::two_tariffs;
use clock::{Clock, CounterClock};
use engine::{Engine, Ticket};
use refusal::Refusal;
use std::test::Fail;
use store::{Store, WordStore};
use summer::{NoSummer, SummerRule};

// Zeros for the first 64 cells.
fn fill<C: Clock, S: Store, R: SummerRule>(
    engine: &mut Engine<C, S, R>,
    ticket: &Ticket,
) -> Result<(), Refusal> {
    for c in 0..64 {
        engine.put(ticket, c, 0)?;
    }
    Ok(())
}

// 64 cells, the 65th after the tests of cell and value, and a value replaced in a full edit.
#[test]
fn full_edit(rt: HostRuntime) -> Result<(), Fail> {
    let mut words = two_tariffs();
    let mut engine = Engine::new(CounterClock::new(), WordStore::new(&mut words), NoSummer);
    let ticket = engine.open()?;
    let filled = fill(&mut engine, &ticket);
    let no_cell = engine.put(&ticket, 706, 0);
    let bad_value = engine.put(&ticket, 64, 1);
    let full = engine.put(&ticket, 64, 0);
    let replaced = engine.put(&ticket, 0, 43200);
    let checked = engine.check();
    let committed = engine.commit(ticket);
    assert_eq!(rt; (filled, replaced), (Ok(()), Ok(())));
    assert_eq!(rt;
        (no_cell, bad_value),
        (Err(Refusal::NoCell), Err(Refusal::BadValue))
    );
    assert_eq!(rt; full, Err(Refusal::EditFull));
    assert_eq!(rt; (checked, committed), (Ok(()), Ok(())));
    assert_eq!(rt; (engine.get(0), engine.get(5)), (Ok(43200), Ok(0)));
    assert_eq!(rt; engine.get(133), Ok(22));
    Ok(())
}
