ghost use Rattle.std.specs.Prelude.{◌++◌};
ghost use Rattle.image.specs.Image.{Bytes, image_cells, image_of, image_rest};
ghost use Rattle.image.specs.Laws.{image_laws};
ghost use Rattle.layout.specs.Layout.{width as cellWidth};

use image::Image;
use refusal::Refusal;
use std::test::Fail;
use store::{Format, LentStore, Store};

// A format that says only what it does at a cell that is there; what it does at any comes with the trait.
enum Plain {}

impl Format for Plain {
    type Unit = u8;

    ghost cells = { image_cells };

    ghost rest = { image_rest };

    ghost width = { cellWidth };

    ghost made = { λ cs rest. image_of cs ++ rest };

    ghost Held = { Bytes };

    ghost laws = { image_laws };

    fn known(bytes: &[u8]) {
        Image::known(bytes);
    }

    fn count(bytes: &[u8]) -> u32 {
        Image::count(bytes)
    }

    fn has(bytes: &[u8], c: u32) -> bool {
        Image::has(bytes, c)
    }

    fn read(bytes: &[u8], c: u32) -> u32 {
        Image::read(bytes, c)
    }

    fn holds(c: u32, v: u32) -> bool {
        Image::holds(c, v)
    }

    fn write(bytes: &mut [u8], c: u32, v: u32) {
        Image::write(bytes, c, v);
    }
}

#[test]
fn a_store_of_any_format(rt: HostRuntime) {
    let mut bytes = [7; 8];
    let mut store = LentStore::<Plain>::new(&mut bytes);
    assert_eq!(rt; store.put(3, 9), Ok(()));
    assert_eq!(rt; store.put(3, 256), Err(Refusal::BadValue));
    assert_eq!(rt; store.put(4, 0), Err(Refusal::NoCell));
    assert_eq!(rt; (store.size(), store.get(3)), (4, Ok(9)));
    assert_eq!(rt; store.get(4), Err(Refusal::NoCell));
}

#[test]
fn at_every_cell_and_value(rt: HostRuntime) {
    let mut bytes = [7; 8];
    Plain::put(&mut bytes, 3, 256);
    Plain::put(&mut bytes, 4, 0);
    assert_eq!(rt; bytes, [7; 8]);
    Plain::put(&mut bytes, 3, 5);
    assert_eq!(rt; bytes, [7, 7, 7, 7, 7, 7, 7, 5]);
    assert_eq!(rt;
        (Plain::get(&bytes, 3), Plain::get(&bytes, 4)),
        (Some(5), None)
    );
}

#[test]
fn at_a_cell_that_is_there(rt: HostRuntime) -> Result<(), Fail> {
    let mut bytes = [7; 8];
    if !(Image::has(&bytes, 3) && Image::holds(3, 5)) {
        return Err(Fail::new("no cell"));
    }
    Image::write(&mut bytes, 3, 5);
    assert_eq!(rt; bytes, [7, 7, 7, 7, 7, 7, 7, 5]);
    if !Image::has(&bytes, 3) {
        return Err(Fail::new("no cell"));
    }
    assert_eq!(rt; Image::read(&bytes, 3), 5);
    Ok(())
}
