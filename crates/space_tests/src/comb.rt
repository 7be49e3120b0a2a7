// A comb of 1,024 free extents, the most that a slab may have: what still can be granted and given back, and what not.
use crate::helpers::figures;
use slab_log::{Extent, Fault, Size};
use space::Space;
use std::test::Fail;

// The sectors 1, 3, .., 2,045 of 4,096 are in use: 1,023 free extents of one sector, and 2,046 to 4,095.
fn comb() -> Result<Space, Fail> {
    let mut space = Space::new(Size::new(4_096)?);
    for i in 0..1_023u64 {
        space.grant(Extent::new(2 * i + 1, 1)?)?;
    }
    Ok(space)
}

#[test]
fn a_comb_has_1024_free_extents(rt: HostRuntime) -> Result<(), Fail> {
    let space = comb()?;
    figures(&rt, &space, 3_073, 1_024, 2_050);
    Ok(())
}

#[test]
fn one_more_free_extent_is_refused(rt: HostRuntime) -> Result<(), Fail> {
    let mut space = comb()?;
    assert_eq!(rt; space.grant(Extent::new(3_000, 1)?), Err(Fault::Crowded));
    figures(&rt, &space, 3_073, 1_024, 2_050);
    assert!(rt; space.has_free(Extent::new(3_000, 1)?));
    assert_eq!(rt;
        space.grant(Extent::new(2_047, 2_048)?),
        Err(Fault::Crowded)
    );
    figures(&rt, &space, 3_073, 1_024, 2_050);
    Ok(())
}

#[test]
fn an_end_of_a_free_extent_is_granted(rt: HostRuntime) -> Result<(), Fail> {
    let mut space = comb()?;
    assert_eq!(rt; space.grant(Extent::new(2_046, 10)?), Ok(()));
    figures(&rt, &space, 3_063, 1_024, 2_040);
    assert_eq!(rt; space.grant(Extent::new(4_095, 1)?), Ok(()));
    figures(&rt, &space, 3_062, 1_024, 2_039);
    Ok(())
}

#[test]
fn a_whole_free_extent_makes_room_for_a_cut(rt: HostRuntime) -> Result<(), Fail> {
    let mut space = comb()?;
    assert_eq!(rt; space.grant(Extent::new(0, 1)?), Ok(()));
    figures(&rt, &space, 3_072, 1_023, 2_050);
    assert_eq!(rt; space.grant(Extent::new(3_000, 1)?), Ok(()));
    figures(&rt, &space, 3_071, 1_024, 1_095);
    assert_eq!(rt; space.grant(Extent::new(3_500, 1)?), Err(Fault::Crowded));
    Ok(())
}

#[test]
fn a_return_between_two_free_extents_joins_them(rt: HostRuntime) -> Result<(), Fail> {
    let mut space = comb()?;
    assert_eq!(rt; space.give_back(Extent::new(1, 1)?), Ok(()));
    figures(&rt, &space, 3_074, 1_023, 2_050);
    assert_eq!(rt; space.next(0), Some(Extent::new(0, 3)?));
    assert_eq!(rt; space.grant(Extent::new(3_000, 1)?), Ok(()));
    figures(&rt, &space, 3_073, 1_024, 1_095);
    Ok(())
}

#[test]
fn a_return_with_no_free_neighbour_is_refused(rt: HostRuntime) -> Result<(), Fail> {
    let mut space = comb()?;
    assert_eq!(rt; space.grant(Extent::new(2_046, 10)?), Ok(()));
    assert_eq!(rt; space.extents_after(Extent::new(2_050, 1)?), Some(1_025));
    assert_eq!(rt;
        space.give_back(Extent::new(2_050, 1)?),
        Err(Fault::Crowded)
    );
    figures(&rt, &space, 3_063, 1_024, 2_040);
    assert_eq!(rt; space.extents_after(Extent::new(2_055, 1)?), Some(1_024));
    assert_eq!(rt; space.give_back(Extent::new(2_055, 1)?), Ok(()));
    figures(&rt, &space, 3_064, 1_024, 2_041);
    Ok(())
}
