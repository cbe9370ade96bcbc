use crate::steps::{after, set_after};
use chip::CalendarChip;
use clock::{Clock, CounterClock, InstantClock, SettableClock};
use layers::Vouching;
use refusal::Refusal;
use std::test::Fail;

#[test]
fn vouches_from_each_set(rt: HostRuntime) -> Result<(), Fail> {
    let mut v = Vouching::new(CounterClock::new());
    assert_eq!(rt; after(&mut v, 40_000_000), None);
    assert_eq!(rt; set_after(&mut v, 0, 34_128_000)?, Some(34_128_000));
    assert_eq!(rt; set_after(&mut v, 5, 34_128_000)?, Some(34_128_005));
    assert_eq!(rt; after(&mut v, 1), None);
    Ok(())
}

#[test]
fn vouches_from_its_making(rt: HostRuntime) -> Result<(), Fail> {
    let mut lower = CounterClock::new();
    lower.set(100)?;
    let mut v = Vouching::new(lower);
    assert_eq!(rt; after(&mut v, 34_128_000), Some(34_128_100));
    assert_eq!(rt; after(&mut v, 1), None);
    Ok(())
}

#[test]
fn comes_back_by_an_accepted_set(rt: HostRuntime) -> Result<(), Fail> {
    let mut v = Vouching::new(CalendarChip::new());
    assert_eq!(rt; set_after(&mut v, 946_684_800, 34_128_001)?, None);
    assert_eq!(rt; v.set(946_684_799), Err(Refusal::TimeNotTaken));
    assert_eq!(rt; v.read(), None);
    assert_eq!(rt; set_after(&mut v, 946_684_800, 0)?, Some(946_684_800));
    Ok(())
}

#[test]
fn vouches_no_further_than_the_lower_clock(rt: HostRuntime) {
    let mut v = Vouching::new(InstantClock::new(9));
    assert_eq!(rt; v.read(), Some(9));
    assert_eq!(rt; after(&mut v, 1), None);
}

// The first and the last second of a kind.
fn ends<C: SettableClock>(_: &C) -> (u32, u32) {
    (C::first(), C::last())
}

#[test]
fn lies_over_another_layer(rt: HostRuntime) -> Result<(), Fail> {
    let mut v = Vouching::new(Vouching::new(CalendarChip::new()));
    assert_eq!(rt; ends(&v), (946_684_800, 4_102_444_799));
    assert_eq!(rt;
        set_after(&mut v, 946_684_800, 34_128_000)?,
        Some(980_812_800)
    );
    assert_eq!(rt; after(&mut v, 1), None);
    assert_eq!(rt; set_after(&mut v, 4_102_444_794, 5)?, Some(4_102_444_799));
    assert_eq!(rt; after(&mut v, 1), None);
    Ok(())
}
