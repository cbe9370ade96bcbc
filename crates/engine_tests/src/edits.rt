use crate::sample::{NO_EDIT, NO_ORDER, lives, two_tariffs};
use history::{Answer, Call};
use refusal::Refusal;

// Without an edit nothing else is tested.
#[test]
fn without_an_edit(rt: HostRuntime) {
    let calls = [
        Call::Put(706, 256),
        Call::Check,
        Call::Commit,
        Call::Discard,
        Call::Clear,
        Call::Run(&[]),
    ];
    let mut answers = [Answer::Done; 6];
    lives(&mut two_tariffs(), &calls, &mut answers);
    assert_eq!(rt;
        answers,
        [NO_EDIT, NO_EDIT, NO_EDIT, NO_EDIT, NO_EDIT, NO_ORDER]
    );
}

// The cell before the value; a commit that was not checked closes the edit unwritten.
#[test]
fn refused_in_order(rt: HostRuntime) {
    let calls = [
        Call::Open,
        Call::Open,
        Call::Put(706, 256),
        Call::Put(0, 86401),
        Call::Put(0, 86400),
        Call::Commit,
        Call::Discard,
        Call::Get(0),
        Call::Get(706),
        Call::Run(&[]),
    ];
    let mut answers = [Answer::Done; 10];
    lives(&mut two_tariffs(), &calls, &mut answers);
    assert_eq!(rt;
        answers,
        [
            Answer::Done,
            Answer::Refused(Refusal::EditOpen),
            Answer::Refused(Refusal::NoCell),
            Answer::Refused(Refusal::BadValue),
            Answer::Done,
            Answer::Refused(Refusal::NotChecked),
            NO_EDIT,
            Answer::Cell(46800),
            Answer::Refused(Refusal::NoCell),
            NO_ORDER,
        ]
    );
}

// An accepted Put takes the mark away, a refused one leaves it.
#[test]
fn marks(rt: HostRuntime) {
    let calls = [
        Call::Open,
        Call::Check,
        Call::Put(1, 1),
        Call::Commit,
        Call::Open,
        Call::Put(0, 1),
        Call::Put(0, 43200),
        Call::Check,
        Call::Put(1, 2),
        Call::Get(0),
        Call::Commit,
        Call::Get(0),
        Call::Get(1),
        Call::Run(&[]),
    ];
    let mut answers = [Answer::Done; 14];
    let mut words = two_tariffs();
    lives(&mut words, &calls, &mut answers);
    assert_eq!(rt; answers[3], Answer::Refused(Refusal::NotChecked));
    assert_eq!(rt; answers[8], Answer::Refused(Refusal::BadValue));
    assert_eq!(rt; answers[9], Answer::Cell(46800));
    assert_eq!(rt; answers[10], Answer::Done);
    assert_eq!(rt; answers[11], Answer::Cell(43200));
    assert_eq!(rt; answers[12], Answer::Cell(0));
    assert_eq!(rt; (words[0], words[706]), (43200, 7));
}

// Discard and Clear close the edit unwritten.
#[test]
fn closes_unwritten(rt: HostRuntime) {
    let calls = [
        Call::Open,
        Call::Put(1, 1),
        Call::Check,
        Call::Discard,
        Call::Commit,
        Call::Open,
        Call::Put(1, 1),
        Call::Check,
        Call::Clear,
        Call::Commit,
        Call::Get(1),
        Call::Run(&[]),
    ];
    let mut answers = [Answer::Done; 12];
    lives(&mut two_tariffs(), &calls, &mut answers);
    assert_eq!(rt; (answers[3], answers[4]), (Answer::Done, NO_EDIT));
    assert_eq!(rt; (answers[8], answers[9]), (Answer::Done, NO_EDIT));
    assert_eq!(rt; answers[10], Answer::Cell(0));
}
