use checks::first_fault;
use refusal::Rule;

// Plan 1 with two events, and row 1 that names it on every day.
fn two_tariffs() -> [u32; 706] {
    let mut cells = [0u32; 706];
    cells[0] = 46800;
    cells[2] = 8190;
    cells[3] = 254;
    cells[4] = 4294967294;
    cells[5] = 1;
    cells[130] = 6;
    cells[132] = 1;
    cells[133] = 22;
    cells[135] = 2;
    cells
}

fn found(cells: [u32; 706]) -> Option<(Rule, u32)> {
    first_fault(&cells).map(|fault| (fault.rule, fault.cell))
}

#[test]
fn rules_in_sequence(rt: HostRuntime) {
    let good = two_tariffs();
    assert_eq!(rt; found(good), None);
    let mut twice = good;
    twice[133] = 6;
    assert_eq!(rt; found(twice), Some((Rule::StartAlone, 133)));
    let mut unserved = twice;
    unserved[6] = 2;
    unserved[7] = 2;
    unserved[8] = 2;
    unserved[9] = 2;
    assert_eq!(rt; found(unserved), Some((Rule::RowServed, 6)));
    let mut half = unserved;
    half[13] = 1;
    assert_eq!(rt; found(half), Some((Rule::RowWhole, 10)));
    let mut wild = half;
    wild[705] = 256;
    assert_eq!(rt; found(wild), Some((Rule::CellInRange, 705)));
}
