use tables::{Tables, has_bit};

#[test]
fn rows_that_count(rt: HostRuntime) {
    let mut cells = [0u32; 706];
    // stray bits only
    cells[2] = 1;
    cells[3] = 254;
    cells[4] = 2;
    cells[5] = 1;
    // one bit of each mask among stray ones, and the last plan
    cells[6] = 65539;
    cells[7] = 257 + 2;
    cells[8] = 3;
    cells[9] = 16;
    // a plan that there is not
    cells[10] = 8190;
    cells[11] = 254;
    cells[12] = 4294967294;
    cells[13] = 17;
    let tables = Tables::new(&cells);
    let rows = tables.rows();
    assert!(rt; rows.len() == 1);
    let row = rows[0];
    assert_eq!(rt; row.number, 2);
    assert_eq!(rt; row.plan, 16);
    assert_eq!(rt; row.counts.months, 1);
    assert_eq!(rt; row.counts.weekdays, 1);
    assert_eq!(rt; row.counts.dates, 1);
}

#[test]
fn events_that_count(rt: HostRuntime) {
    let mut cells = [0u32; 706];
    // 24:00, 23:60, tariff 0, tariff 256, and 23:59 with the largest tariff
    cells[130] = 24;
    cells[132] = 1;
    cells[133] = 23;
    cells[134] = 60;
    cells[135] = 1;
    cells[138] = 0;
    cells[141] = 256;
    cells[142] = 23;
    cells[143] = 59;
    cells[144] = 255;
    let tables = Tables::new(&cells);
    let events = tables.events_of(1);
    assert!(rt; events.len() == 1);
    let event = events[0];
    assert_eq!(rt; event.number, 5);
    assert_eq!(rt; event.minute, 1439);
    assert_eq!(rt; event.tariff, 255);
    assert_eq!(rt; tables.events_of(0).len(), 0);
    assert_eq!(rt; tables.events_of(17).len(), 0);
}

#[test]
fn zone_and_summer_time(rt: HostRuntime) {
    assert_eq!(rt; Tables::new(&[]).offset, -43200);
    assert_eq!(rt; Tables::new(&[86400]).offset, 43200);
    assert_eq!(rt; Tables::new(&[86401]).offset, 0);
    assert!(rt; Tables::new(&[0, 1]).summer);
    assert!(rt; !Tables::new(&[0, 2]).summer);
    assert!(rt; has_bit(4096, 12));
}
