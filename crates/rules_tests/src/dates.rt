use calendar::{date_of, day_of};
use localtime::{day_number, local_time, time_of_day, weekday};
use refusal::Refusal;

#[test]
fn dates_at_both_ends(rt: HostRuntime) {
    assert_eq!(rt; date_of(-31), Ok((1969, 12, 1)));
    assert_eq!(rt; date_of(0), Ok((1970, 1, 1)));
    assert_eq!(rt; date_of(49731), Ok((2106, 2, 28)));
    assert_eq!(rt; date_of(-32), Err(Refusal::NoDate));
    assert_eq!(rt; date_of(49732), Err(Refusal::NoDate));
}

#[test]
fn days_of_leap_years(rt: HostRuntime) {
    assert_eq!(rt; day_of((2000, 2, 29)), Ok(11016));
    assert_eq!(rt; day_of((2100, 2, 29)), Err(Refusal::NoDate));
    assert_eq!(rt; day_of((2024, 4, 31)), Err(Refusal::NoDate));
    assert_eq!(rt; day_of((2024, 13, 1)), Err(Refusal::NoDate));
    assert_eq!(rt; day_of((1969, 11, 30)), Err(Refusal::NoDate));
}

#[test]
fn weekdays_turn(rt: HostRuntime) {
    assert_eq!(rt; weekday(0), 5);
    assert_eq!(rt; weekday(-1), 4);
    assert_eq!(rt; weekday(3), 1);
    assert_eq!(rt; weekday(2), 7);
}

#[test]
fn before_the_epoch(rt: HostRuntime) {
    let local = local_time(0, -43200, false);
    assert_eq!(rt; local, -43200);
    assert_eq!(rt; day_number(local), -1);
    assert_eq!(rt; time_of_day(local), 43200);
}
