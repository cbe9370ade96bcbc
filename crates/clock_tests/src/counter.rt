use crate::steps::{after, set_after};
use clock::{Clock, CounterClock, SettableClock};
use std::test::Fail;

#[test]
fn begins_without_time(rt: HostRuntime) {
    let mut c = CounterClock::new();
    assert_eq!(rt; c.read(), None);
    assert_eq!(rt; after(&mut c, 5), None);
}

#[test]
fn accepts_first_to_last(rt: HostRuntime) -> Result<(), Fail> {
    assert_eq!(rt; <CounterClock as SettableClock>::first(), 0);
    assert_eq!(rt; <CounterClock as SettableClock>::last(), 4_294_967_295);
    let mut c = CounterClock::new();
    assert_eq!(rt; set_after(&mut c, 0, 0)?, Some(0));
    assert_eq!(rt; set_after(&mut c, 4_294_967_295, 0)?, Some(4_294_967_295));
    assert_eq!(rt; after(&mut c, 1), None);
    Ok(())
}

#[test]
fn uses_up_its_span(rt: HostRuntime) -> Result<(), Fail> {
    let mut c = CounterClock::new();
    assert_eq!(rt; set_after(&mut c, 7, 5)?, Some(12));
    assert_eq!(rt; after(&mut c, 4_294_967_283), Some(4_294_967_295));
    assert_eq!(rt; set_after(&mut c, 7, 4_294_967_289)?, None);
    Ok(())
}
