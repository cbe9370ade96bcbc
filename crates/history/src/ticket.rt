use clock::InstantClock;
use engine::{Engine, Ticket};
use store::WordStore;
use summer::NoSummer;

// A ticket from an engine that is made for it: a ticket fits every engine.
pub(crate) fn fresh_ticket() -> Ticket {
    let mut no_words = [0u32; 0];
    let mut office = Engine::new(
        InstantClock::new(0),
        WordStore::new(&mut no_words),
        NoSummer,
    );
    match office.open() {
        Ok(ticket) => ticket,
        Err(_) => unreachable(),
    }
}

// Spends a ticket at an engine that has no edit.
pub(crate) fn spend(ticket: Ticket) {
    let mut no_words = [0u32; 0];
    let mut office = Engine::new(
        InstantClock::new(0),
        WordStore::new(&mut no_words),
        NoSummer,
    );
    let _ = office.discard(ticket);
}
