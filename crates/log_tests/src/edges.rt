// The least and the greatest sizes and extents, and their neighbours.
use slab_log::{Extent, Refusal, Size};
use std::test::Fail;

#[test]
fn sizes(rt: HostRuntime) -> Result<(), Fail> {
    assert_eq!(rt; Size::new(1)?.sectors, 1);
    assert_eq!(rt; Size::new(67_108_864)?.sectors, 67_108_864);
    assert_eq!(rt; Size::new(0), Err(Refusal::BadSize));
    assert_eq!(rt; Size::new(67_108_865), Err(Refusal::BadSize));
    assert_eq!(rt; Size::new(u64::MAX), Err(Refusal::BadSize));
    Ok(())
}

#[test]
fn extents(rt: HostRuntime) -> Result<(), Fail> {
    let last = Extent::new(67_108_863, 1)?;
    assert_eq!(rt; last.start, 67_108_863);
    assert_eq!(rt; last.length, 1);
    assert_eq!(rt; Extent::new(0, 67_108_864)?.length, 67_108_864);
    assert_eq!(rt; Extent::new(67_108_863, 2), Err(Refusal::BadExtent));
    assert_eq!(rt; Extent::new(67_108_864, 1), Err(Refusal::BadExtent));
    assert_eq!(rt; Extent::new(5, 0), Err(Refusal::BadExtent));
    Ok(())
}

#[test]
fn sums_past_64_bits(rt: HostRuntime) {
    assert_eq!(rt; Extent::new(u64::MAX, 1), Err(Refusal::BadExtent));
    assert_eq!(rt; Extent::new(1, u64::MAX), Err(Refusal::BadExtent));
    assert_eq!(rt; Extent::new(u64::MAX, u64::MAX), Err(Refusal::BadExtent));
    assert_eq!(rt; Extent::new(u64::MAX - 9, 20), Err(Refusal::BadExtent));
}
