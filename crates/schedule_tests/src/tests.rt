use schedule::{Look, last_second_of, look, look_by_both, look_twice};
use summer::{Europe, NoSummer};
use tables::Tables;

// Greenwich without summer time; plan 1 on the days of the mask, with one event, at 12:00 with tariff 7.
fn noon_on(dates: u32) -> [u32; 706] {
    let mut cells = [0u32; 706];
    cells[0] = 43200;
    cells[2] = 8190;
    cells[3] = 254;
    cells[4] = dates;
    cells[5] = 1;
    cells[130] = 12;
    cells[132] = 7;
    cells
}

#[test]
fn seven_days_back_and_no_more(rt: HostRuntime) {
    let tables = Tables::new(&noon_on(2));
    // 8 January 1970, 00:00: the event of the first
    assert_eq!(rt;
        look(&tables, &NoSummer, 7 * 86400),
        Look {
            local_time: 604800,
            row: 0,
            plan: 0,
            event_plan: 1,
            event: 1,
            days_back: 7,
            tariff: 7,
            last_second: 691199,
        }
    );
    // 9 January: none
    let ninth = look(&tables, &NoSummer, 8 * 86400);
    assert_eq!(rt; ninth.event, 0);
    assert_eq!(rt; ninth.event_plan, 0);
    assert_eq!(rt; ninth.days_back, 0);
    assert_eq!(rt; ninth.tariff, 0);
}

#[test]
fn equal_starts_and_a_start_at_midnight(rt: HostRuntime) {
    let mut cells = noon_on(4294967294);
    // 12:00 again with tariff 8, and 00:00 with tariff 9
    cells[133] = 12;
    cells[135] = 8;
    cells[138] = 9;
    let tables = Tables::new(&cells);
    assert_eq!(rt; look(&tables, &NoSummer, 43200).event, 1);
    let midnight = look(&tables, &NoSummer, 86400);
    assert_eq!(rt; midnight.event, 3);
    assert_eq!(rt; midnight.days_back, 0);
    assert_eq!(rt; midnight.tariff, 9);
    assert_eq!(rt; midnight.last_second, 129599);
}

#[test]
fn an_hour_that_comes_twice(rt: HostRuntime) {
    let mut cells = noon_on(4294967294);
    // an hour east with summer time; 02:30 with tariff 5
    cells[0] = 46800;
    cells[1] = 1;
    cells[133] = 2;
    cells[134] = 30;
    cells[135] = 5;
    let tables = Tables::new(&cells);
    // 27 October 2024: half past two comes at 00:30 and again at 01:30 UTC; at 01:00 UTC local time goes back behind it
    assert_eq!(rt; look(&tables, &Europe, 1729989000).tariff, 5);
    assert_eq!(rt; last_second_of(&tables, &Europe, 1729989000), 1729990799);
    let again = look(&tables, &Europe, 1729990800);
    assert_eq!(rt; again.tariff, 7);
    assert_eq!(rt; again.days_back, 1);
    assert_eq!(rt; again.last_second, 1729992599);
    assert_eq!(rt; look(&tables, &Europe, 1729992600).tariff, 5);
}

#[test]
fn both_ends_of_time(rt: HostRuntime) {
    // no cells at all: twelve hours west, nothing in force
    assert_eq!(rt;
        look(&Tables::new(&[]), &Europe, 0),
        Look {
            local_time: -43200,
            row: 0,
            plan: 0,
            event_plan: 0,
            event: 0,
            days_back: 0,
            tariff: 0,
            last_second: 43199,
        }
    );
    assert_eq!(rt;
        last_second_of(&Tables::new(&[43200]), &NoSummer, 4294967295),
        4294967295
    );
}

#[test]
fn two_looks(rt: HostRuntime) {
    let cells = noon_on(4294967294);
    let (a, b) = look_twice(&Tables::new(&cells), &NoSummer, 43200, 50000);
    assert_eq!(rt; a.local_time, 43200);
    assert_eq!(rt; b.local_time, 50000);
    assert_eq!(rt; b.last_second, a.last_second);
    let (c, d) = look_by_both(&cells, &NoSummer, &Europe, 43200);
    assert_eq!(rt; c, d);
}
