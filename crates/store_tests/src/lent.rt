use image::Image;
use std::test::Fail;
use store::{Entry, Words, put_in};

fn entry(cell: u32, value: u32) -> Entry {
    Entry { cell, value }
}

// The first byte, those of the last cell and the two beside it.
fn ends(memory: &[u8]) -> Option<(u8, u8, u8, u8)> {
    match memory {
        [first, .., before, last, behind] => Some((*first, *before, *last, *behind)),
        _ => None,
    }
}

#[test]
fn bytes_past_the_last_cell(rt: HostRuntime) {
    let mut memory = [7; 838];
    let entries = [
        entry(0, 0x01020304),
        entry(705, 256),
        entry(705, 9),
        entry(706, 9),
    ];
    assert!(rt; put_in::<Image>(&mut memory, &entries).is_err());
    assert_eq!(rt; ends(&memory), Some((1, 7, 9, 7)));
}

#[test]
fn a_cut_cell_is_not_written(rt: HostRuntime) {
    let mut memory = [7; 8];
    assert!(rt; put_in::<Image>(&mut memory, &[entry(3, 5), entry(4, 0)]).is_err());
    assert_eq!(rt; memory, [7, 7, 7, 7, 7, 7, 7, 5]);
}

#[test]
fn words_past_the_last_cell(rt: HostRuntime) -> Result<(), Fail> {
    let mut memory = [7; 707];
    assert!(rt; put_in::<Words>(&mut memory, &[entry(705, 256), entry(706, 9)]).is_err());
    match &memory[..] {
        [.., before, last, behind] => {
            assert_eq!(rt; (*before, *last, *behind), (7, 256, 7));
            Ok(())
        },
        _ => Err(Fail::new("no words")),
    }
}
