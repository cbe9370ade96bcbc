use crate::sample::{NO_EDIT, lives, two_tariffs};
use clock::CounterClock;
use engine::Engine;
use history::{Answer, Call};
use refusal::{Refusal, Rule};
use runner::{Stopped, run};
use store::WordStore;
use summer::NoSummer;

fn run_on(words: &mut [u32], order: &[u8]) -> Result<(), Stopped> {
    let mut meter = Engine::new(CounterClock::new(), WordStore::new(words), NoSummer);
    run(&mut meter, order)
}

fn run_alone(order: &[u8]) -> Result<(), Stopped> {
    run_on(&mut two_tariffs(), order)
}

fn at(place: usize, why: Refusal) -> Result<(), Stopped> {
    Err(Stopped { place, why })
}

fn bad_form(place: usize) -> Result<(), Stopped> {
    at(place, Refusal::BadOrder)
}

#[test]
fn forms(rt: HostRuntime) {
    assert_eq!(rt; run_alone(&[0x01, 0x40]), Ok(()));
    assert_eq!(rt; run_alone(&[]), bad_form(0));
    assert_eq!(rt; run_alone(&[0x40]), bad_form(0));
    assert_eq!(rt; run_alone(&[0x01]), bad_form(1));
    assert_eq!(rt; run_alone(&[0x01, 0x10, 0x00]), bad_form(1));
    assert_eq!(rt; run_alone(&[0x01, 0x30, 0x20]), bad_form(1));
    assert_eq!(rt; run_alone(&[0x01, 0x01, 0x40]), bad_form(1));
    assert_eq!(rt; run_alone(&[0x01, 0x40, 0x40]), bad_form(1));
    assert_eq!(rt; run_alone(&[0x01, 0x20, 0x77]), bad_form(2));
}

#[test]
fn refused_commands(rt: HostRuntime) {
    assert_eq!(rt; run_alone(&[0x01, 0x30]), at(1, Refusal::NotChecked));
    let no_cell = [0x01, 0x20, 0x10, 0x02, 0xC2, 0, 0, 0, 0, 0x40];
    assert_eq!(rt; run_alone(&no_cell), at(2, Refusal::NoCell));
    let clash = [0x01, 0x10, 0, 133, 0, 0, 0, 6, 0x20, 0x30];
    let named = Refusal::Inconsistent {
        rule: Rule::StartAlone,
        cell: 133,
    };
    assert_eq!(rt; run_alone(&clash), at(8, named));
}

// A Put of the zone, replaced, checked and committed: the other words are as they were.
#[test]
fn committed(rt: HostRuntime) {
    let mut words = two_tariffs();
    let order = [
        0x01, 0x10, 0, 0, 0, 0, 0, 1, 0x10, 0, 0, 0, 0, 0xA8, 0xC0, 0x20, 0x30,
    ];
    assert_eq!(rt; run_on(&mut words, &order), Ok(()));
    assert_eq!(rt; (words[0], words[1]), (43200, 0));
    assert_eq!(rt; (words[705], words[706]), (0, 7));
}

// A Put refused in the middle leaves no edit open, and nothing written.
#[test]
fn refused_in_the_middle(rt: HostRuntime) {
    let order = [
        0x01, 0x10, 0, 1, 0, 0, 0, 1, 0x10, 0, 1, 0, 0, 0, 2, 0x20, 0x30,
    ];
    let calls = [Call::Run(&order), Call::Discard, Call::Get(1)];
    let mut answers = [Answer::Done; 3];
    lives(&mut two_tariffs(), &calls, &mut answers);
    let stopped = Stopped {
        place: 8,
        why: Refusal::BadValue,
    };
    assert_eq!(rt;
        answers,
        [Answer::Stopped(stopped), NO_EDIT, Answer::Cell(0)]
    );
}

// An order during an edit is refused at its first byte, after its form, and leaves the edit.
#[test]
fn during_an_edit(rt: HostRuntime) {
    let calls = [
        Call::Open,
        Call::Put(1, 1),
        Call::Check,
        Call::Run(&[0x01, 0x40]),
        Call::Run(&[0x01]),
        Call::Commit,
        Call::Get(1),
    ];
    let mut answers = [Answer::Done; 7];
    lives(&mut two_tariffs(), &calls, &mut answers);
    let open = Stopped {
        place: 0,
        why: Refusal::EditOpen,
    };
    let short = Stopped {
        place: 1,
        why: Refusal::BadOrder,
    };
    assert_eq!(rt;
        (answers[3], answers[4]),
        (Answer::Stopped(open), Answer::Stopped(short))
    );
    assert_eq!(rt; (answers[5], answers[6]), (Answer::Done, Answer::Cell(1)));
}
