use keeper::{Counts, Keeper, best_of};
use std::cmp::Reverse;

fn counts(months: u8, dates: u8, weekdays: u8) -> Counts {
    Counts {
        months,
        dates,
        weekdays,
    }
}

#[test]
fn fewest_months_then_dates_then_weekdays(rt: HostRuntime) {
    let mut narrowest = Keeper::new();
    narrowest.offer(counts(12, 1, 7), 1u8);
    narrowest.offer(counts(1, 31, 7), 2);
    narrowest.offer(counts(1, 31, 7), 3);
    narrowest.offer(counts(1, 31, 6), 4);
    narrowest.offer(counts(1, 31, 6), 5);
    assert_eq!(rt; narrowest.best_place(), Some(4));
}

#[test]
fn later_minute_and_earlier_second(rt: HostRuntime) {
    let mut latest = Keeper::new();
    latest.offer(Reverse(360u16), 1u8);
    latest.offer(Reverse(1320), 2);
    latest.offer(Reverse(1320), 3);
    assert_eq!(rt; latest.best_place(), Some(2));
    let mut soonest = Keeper::new();
    soonest.offer(86400u32, 1u8);
    soonest.offer(21600, 2);
    soonest.offer(21600, 3);
    assert_eq!(rt; soonest.best_place(), Some(2));
}

#[test]
fn nothing_offered(rt: HostRuntime) {
    let none: Keeper<u32, u8> = Keeper::new();
    assert_eq!(rt; none.best_place(), None);
}

#[test]
fn of_the_even_the_first_with_fewest_tens(rt: HostRuntime) {
    let numbers = [7u32, 12, 3, 10, 8, 2];
    assert_eq!(rt; best_of(&numbers, |n| *n % 2 == 0, |n| *n / 10), Some(8));
    assert_eq!(rt; best_of(&numbers, |n| *n > 12, |n| *n), None);
}
