use layout::{CELLS, IMAGE_BYTES, event_cell, in_range, place, row_cell, width};

#[test]
fn stands(rt: HostRuntime) {
    assert_eq!(rt; row_cell(1), 2);
    assert_eq!(rt; row_cell(32), 126);
    assert_eq!(rt; event_cell(1, 1), 130);
    assert_eq!(rt; event_cell(16, 12), 703);
    assert_eq!(rt; place(row_cell(32)), 253);
    assert_eq!(rt; place(CELLS), IMAGE_BYTES);
    assert_eq!(rt; IMAGE_BYTES, 837);
}

#[test]
fn ranges(rt: HostRuntime) {
    assert_eq!(rt; width(0) + width(2) + width(4) + width(705), 11);
    assert_eq!(rt; in_range(0, 86400), true);
    assert_eq!(rt; in_range(0, 86401), false);
    assert_eq!(rt; in_range(2, 8190), true);
    assert_eq!(rt; in_range(2, 1), false);
    assert_eq!(rt; in_range(705, 255), true);
    assert_eq!(rt; in_range(705, 256), false);
}
