use refusal::{Refusal, Rule};
use std::test::Fail;

#[test]
fn numbers(rt: HostRuntime) {
    assert_eq!(rt; Refusal::NoTime.number(), 1);
    assert_eq!(rt; Refusal::NoDate.number(), 11);
    let broken = Refusal::Inconsistent {
        rule: Rule::RowServed,
        cell: 2,
    };
    assert_eq!(rt; broken.number(), 8);
}

#[test]
fn words(rt: HostRuntime) -> Result<(), Fail> {
    let heap = rt.alloc();
    let full = Refusal::EditFull;
    let broken = Refusal::Inconsistent {
        rule: Rule::RowServed,
        cell: 6,
    };
    assert_eq!(rt; format!(in heap; "{full}")?.as_str(), "7 edit full");
    assert_eq!(rt;
        format!(in heap; "{broken}")?.as_str(),
        "8 inconsistent (rule 3, cell 6)"
    );
    Ok(())
}
