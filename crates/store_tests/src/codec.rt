use image::{decode, encode};
use std::test::Fail;

#[test]
fn there_and_back(rt: HostRuntime) -> Result<(), Fail> {
    let heap = rt.alloc();
    let image = encode(heap, &[46800, 1, 8190])?;
    assert_eq!(rt; image.as_slice(), [0, 0, 182, 208, 1, 31, 254].as_slice());
    let cells = decode(heap, &image)?;
    assert_eq!(rt; cells.as_slice(), [46800, 1, 8190].as_slice());
    Ok(())
}

#[test]
fn no_bytes(rt: HostRuntime) -> Result<(), Fail> {
    let cells = decode(rt.alloc(), &[])?;
    assert_eq!(rt; cells.len(), 0);
    Ok(())
}
