use image::ImageStore;
use store::{Store, WordStore};

fn image_size(memory: &mut [u8]) -> u32 {
    ImageStore::new(memory).size()
}

fn word_size(memory: &mut [u32]) -> u32 {
    WordStore::new(memory).size()
}

#[test]
fn image_sizes(rt: HostRuntime) {
    assert_eq!(rt; image_size(&mut []), 0);
    assert_eq!(rt; image_size(&mut [0; 3]), 0);
    assert_eq!(rt; image_size(&mut [0; 4]), 1);
    assert_eq!(rt; image_size(&mut [0; 5]), 2);
    assert_eq!(rt; image_size(&mut [0; 836]), 705);
    assert_eq!(rt; image_size(&mut [0; 837]), 706);
    assert_eq!(rt; image_size(&mut [0; 838]), 706);
}

#[test]
fn word_sizes(rt: HostRuntime) {
    assert_eq!(rt; word_size(&mut []), 0);
    assert_eq!(rt; word_size(&mut [0; 1]), 1);
    assert_eq!(rt; word_size(&mut [0; 705]), 705);
    assert_eq!(rt; word_size(&mut [0; 706]), 706);
    assert_eq!(rt; word_size(&mut [0; 707]), 706);
}
