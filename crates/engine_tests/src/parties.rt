use crate::sample::two_tariffs;
use archive::{Parts, confirm, confirm_unset};
use clock::{CounterClock, InstantClock};
use history::{Answer, Call};
use layers::Vouching;
use refusal::Refusal;
use store::WordStore;
use summer::Europe;

// A meter without a time, then set and passed on; a reader at the same second sees the same.
#[test]
fn same_look(rt: HostRuntime) {
    let mut words = two_tariffs();
    let mut archived = two_tariffs();
    let calls = [
        Call::Look,
        Call::Set(1_000_000_000),
        Call::Pass(5),
        Call::Run(&[]),
    ];
    let mut answers = [Answer::Done; 4];
    let meter = Parts {
        clock: Vouching::new(CounterClock::new()),
        store: WordStore::new(&mut words),
        rule: Europe,
    };
    let reader = Parts {
        clock: InstantClock::new(1_000_000_005),
        store: WordStore::new(&mut archived),
        rule: Europe,
    };
    let o = confirm(meter, &calls, &mut answers, reader);
    assert_eq!(rt; o.count, 4);
    assert!(rt; o.shown.is_ok());
    assert_eq!(rt; o.shown, o.read);
    assert_eq!(rt; answers[0], Answer::Refused(Refusal::NoTime));
}

// A clock that cannot be set refuses a Set; a call without a place for its answer is not made.
#[test]
fn unset_clock(rt: HostRuntime) {
    let mut words = two_tariffs();
    let mut archived = two_tariffs();
    let calls = [Call::Set(5), Call::Run(&[]), Call::Pass(7)];
    let mut answers = [Answer::Done; 2];
    let meter = Parts {
        clock: InstantClock::new(9),
        store: WordStore::new(&mut words),
        rule: Europe,
    };
    let reader = Parts {
        clock: InstantClock::new(9),
        store: WordStore::new(&mut archived),
        rule: Europe,
    };
    let o = confirm_unset(meter, &calls, &mut answers, reader);
    assert_eq!(rt; o.count, 2);
    assert_eq!(rt; o.shown, o.read);
    assert_eq!(rt; answers[0], Answer::Refused(Refusal::TimeNotTaken));
}
