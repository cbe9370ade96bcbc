use crate::steps::after;
use clock::InstantClock;

#[test]
fn shows_its_second_alone(rt: HostRuntime) {
    assert_eq!(rt; after(&mut InstantClock::new(0), 0), Some(0));
    assert_eq!(rt;
        after(&mut InstantClock::new(4_294_967_295), 0),
        Some(4_294_967_295)
    );
    assert_eq!(rt; after(&mut InstantClock::new(9), 1), None);
}
