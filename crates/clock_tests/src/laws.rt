use clock::{Clock, CounterClock, SettableClock, pass_twice, set_over};
use std::test::Fail;

#[test]
fn passes_twice(rt: HostRuntime) -> Result<(), Fail> {
    let mut c = CounterClock::new();
    c.set(1)?;
    pass_twice(&mut c, 2, 3);
    assert_eq!(rt; c.read(), Some(6));
    pass_twice(&mut c, 4_294_967_295, 1);
    assert_eq!(rt; c.read(), None);
    Ok(())
}

#[test]
fn sets_over(rt: HostRuntime) -> Result<(), Fail> {
    let mut c = CounterClock::new();
    set_over(&mut c, 1, 2)?;
    assert_eq!(rt; c.read(), Some(2));
    Ok(())
}
