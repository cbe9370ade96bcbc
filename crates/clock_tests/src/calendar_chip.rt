use crate::steps::{after, set_after};
use chip::CalendarChip;
use clock::{Clock, SettableClock};
use refusal::Refusal;
use std::test::Fail;

#[test]
fn begins_without_time(rt: HostRuntime) {
    let mut c = CalendarChip::new();
    assert_eq!(rt; c.read(), None);
    assert_eq!(rt; after(&mut c, 5), None);
}

#[test]
fn accepts_2000_to_2099(rt: HostRuntime) -> Result<(), Fail> {
    assert_eq!(rt; <CalendarChip as SettableClock>::first(), 946_684_800);
    assert_eq!(rt; <CalendarChip as SettableClock>::last(), 4_102_444_799);
    let mut c = CalendarChip::new();
    assert_eq!(rt; set_after(&mut c, 946_684_800, 0)?, Some(946_684_800));
    assert_eq!(rt; set_after(&mut c, 4_102_444_799, 0)?, Some(4_102_444_799));
    Ok(())
}

#[test]
fn refuses_before_and_after(rt: HostRuntime) -> Result<(), Fail> {
    let mut c = CalendarChip::new();
    assert_eq!(rt; c.set(946_684_799), Err(Refusal::TimeNotTaken));
    assert_eq!(rt; c.read(), None);
    c.set(1_000_000_000)?;
    assert_eq!(rt; c.set(4_102_444_800), Err(Refusal::TimeNotTaken));
    assert_eq!(rt; c.read(), Some(1_000_000_000));
    Ok(())
}

// From the last second of 28 February 2000 over the leap day into March.
#[test]
fn crosses_a_leap_day(rt: HostRuntime) -> Result<(), Fail> {
    let mut c = CalendarChip::new();
    assert_eq!(rt; set_after(&mut c, 951_782_399, 1)?, Some(951_782_400));
    assert_eq!(rt; after(&mut c, 86_399), Some(951_868_799));
    assert_eq!(rt; after(&mut c, 1), Some(951_868_800));
    Ok(())
}

// Into 31 December 2099, to its last second, and one beyond.
#[test]
fn ends_with_2099(rt: HostRuntime) -> Result<(), Fail> {
    let mut c = CalendarChip::new();
    assert_eq!(rt; set_after(&mut c, 4_102_358_399, 1)?, Some(4_102_358_400));
    assert_eq!(rt; after(&mut c, 86_399), Some(4_102_444_799));
    assert_eq!(rt; after(&mut c, 1), None);
    Ok(())
}

#[test]
fn uses_up_its_span(rt: HostRuntime) -> Result<(), Fail> {
    let mut c = CalendarChip::new();
    assert_eq!(rt;
        set_after(&mut c, 946_684_800, 3_155_759_999)?,
        Some(4_102_444_799)
    );
    assert_eq!(rt; set_after(&mut c, 946_684_800, 3_155_760_000)?, None);
    Ok(())
}
