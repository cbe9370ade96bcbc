use orders::fault;

#[test]
fn forms(rt: HostRuntime) {
    assert_eq!(rt; fault(&[0x01, 0x40]), None);
    assert_eq!(rt; fault(&[0x01, 0x10, 0, 1, 0, 0, 0, 1, 0x20, 0x30]), None);
    assert_eq!(rt; fault(&[0x01, 0x10, 0]), Some(1));
    assert_eq!(rt; fault(&[]), Some(0));
    assert_eq!(rt; fault(&[0x01]), Some(1));
    assert_eq!(rt; fault(&[0x01, 0x30, 0x20]), Some(1));
    assert_eq!(rt; fault(&[0x01, 0x01, 0x40]), Some(1));
    assert_eq!(rt; fault(&[0x40]), Some(0));
    assert_eq!(rt; fault(&[0x01, 0x20, 0x77]), Some(2));
}
