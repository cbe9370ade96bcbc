use image::ImageStore;
use refusal::Refusal;
use store::{Store, WordStore};

#[test]
fn widths_of_the_image(rt: HostRuntime) {
    let mut memory = [0u8; 837];
    let mut store = ImageStore::new(&mut memory);
    assert_eq!(rt; store.put(0, 4294967295), Ok(()));
    assert_eq!(rt; store.put(1, 255), Ok(()));
    assert_eq!(rt; store.put(1, 256), Err(Refusal::BadValue));
    assert_eq!(rt; store.put(2, 65535), Ok(()));
    assert_eq!(rt; store.put(2, 65536), Err(Refusal::BadValue));
    assert_eq!(rt; store.put(705, 255), Ok(()));
    assert_eq!(rt; store.put(705, 256), Err(Refusal::BadValue));
    assert_eq!(rt; store.put(706, 256), Err(Refusal::NoCell));
    assert_eq!(rt; store.get(0), Ok(4294967295));
    assert_eq!(rt; store.get(1), Ok(255));
    assert_eq!(rt; store.get(2), Ok(65535));
    assert_eq!(rt; store.get(3), Ok(0));
    assert_eq!(rt; store.get(705), Ok(255));
    assert_eq!(rt; store.get(706), Err(Refusal::NoCell));
}

#[test]
fn words_hold_every_value(rt: HostRuntime) {
    let mut memory = [0u32; 3];
    let mut store = WordStore::new(&mut memory);
    assert_eq!(rt; store.put(1, 4294967295), Ok(()));
    assert_eq!(rt; store.put(3, 0), Err(Refusal::NoCell));
    assert_eq!(rt; store.get(0), Ok(0));
    assert_eq!(rt; store.get(1), Ok(4294967295));
    assert_eq!(rt; store.get(2), Ok(0));
    assert_eq!(rt; store.get(3), Err(Refusal::NoCell));
}
