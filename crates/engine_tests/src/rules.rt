use crate::sample::{lives, two_tariffs};
use history::{Answer, Call};
use refusal::{Refusal, Rule};

fn fault(rule: Rule, cell: u32) -> Answer {
    Answer::Refused(Refusal::Inconsistent { rule, cell })
}

// A fault of each rule: the first is named, until it is mended.
#[test]
fn first_fault_wins(rt: HostRuntime) {
    let mut words = two_tariffs();
    words[133] = 6;
    words[6] = 2;
    words[7] = 2;
    words[8] = 2;
    words[9] = 2;
    words[13] = 1;
    words[705] = 256;
    let calls = [
        Call::Open,
        Call::Check,
        Call::Put(705, 0),
        Call::Check,
        Call::Put(13, 0),
        Call::Check,
        Call::Put(9, 1),
        Call::Check,
        Call::Put(133, 22),
        Call::Check,
        Call::Commit,
        Call::Get(9),
        Call::Run(&[]),
    ];
    let mut answers = [Answer::Done; 13];
    lives(&mut words, &calls, &mut answers);
    assert_eq!(rt;
        (answers[1], answers[3]),
        (fault(Rule::CellInRange, 705), fault(Rule::RowWhole, 10))
    );
    assert_eq!(rt;
        (answers[5], answers[7]),
        (fault(Rule::RowServed, 6), fault(Rule::StartAlone, 133))
    );
    assert_eq!(rt; (answers[9], answers[10]), (Answer::Done, Answer::Done));
    assert_eq!(rt; answers[11], Answer::Cell(1));
}
