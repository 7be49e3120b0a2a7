// Best fit, the next free and used extents, the longest, and what a return would leave, on small slabs.
use crate::helpers::figures;
use slab_log::{Extent, Size};
use space::Space;
use std::test::Fail;

// Of 100 sectors, 10 to 29 and 40 to 59 are free.
fn two_gaps() -> Result<Space, Fail> {
    let mut space = Space::new(Size::new(100)?);
    space.grant(Extent::new(0, 10)?)?;
    space.grant(Extent::new(30, 10)?)?;
    space.grant(Extent::new(60, 40)?)?;
    Ok(space)
}

#[test]
fn figures_of_two_gaps(rt: HostRuntime) -> Result<(), Fail> {
    let space = two_gaps()?;
    assert_eq!(rt; space.size(), Size::new(100)?);
    figures(&rt, &space, 40, 2, 20);
    Ok(())
}

#[test]
fn best_fit_takes_the_lowest_of_equals(rt: HostRuntime) -> Result<(), Fail> {
    let space = two_gaps()?;
    let lowest = Some(Extent::new(10, 20)?);
    assert_eq!(rt; space.best_fit(5), lowest);
    assert_eq!(rt; space.best_fit(1), lowest);
    assert_eq!(rt; space.best_fit(20), lowest);
    assert_eq!(rt; space.best_fit(21), None);
    assert_eq!(rt; space.best_fit(u64::MAX), None);
    Ok(())
}

#[test]
fn best_fit_takes_the_shortest(rt: HostRuntime) -> Result<(), Fail> {
    let mut space = two_gaps()?;
    space.grant(Extent::new(55, 5)?)?;
    assert_eq!(rt; space.best_fit(5), Some(Extent::new(40, 15)?));
    assert_eq!(rt; space.best_fit(15), Some(Extent::new(40, 15)?));
    assert_eq!(rt; space.best_fit(16), Some(Extent::new(10, 20)?));
    space.give_back(Extent::new(80, 15)?)?;
    assert_eq!(rt; space.best_fit(5), Some(Extent::new(40, 15)?));
    space.give_back(Extent::new(97, 3)?)?;
    assert_eq!(rt; space.best_fit(3), Some(Extent::new(97, 3)?));
    assert_eq!(rt; space.best_fit(4), Some(Extent::new(40, 15)?));
    Ok(())
}

#[test]
fn next_free_extents(rt: HostRuntime) -> Result<(), Fail> {
    let space = two_gaps()?;
    let first = Some(Extent::new(10, 20)?);
    let second = Some(Extent::new(40, 20)?);
    assert_eq!(rt; space.next(0), first);
    assert_eq!(rt; space.next(10), first);
    assert_eq!(rt; space.next(11), second);
    assert_eq!(rt; space.next(40), second);
    assert_eq!(rt; space.next(41), None);
    assert_eq!(rt; space.next(u64::MAX), None);
    Ok(())
}

#[test]
fn next_used_runs(rt: HostRuntime) -> Result<(), Fail> {
    let space = two_gaps()?;
    let middle = Some(Extent::new(30, 10)?);
    let last = Some(Extent::new(60, 40)?);
    assert_eq!(rt; space.next_used(0), Some(Extent::new(0, 10)?));
    assert_eq!(rt; space.next_used(1), middle);
    assert_eq!(rt; space.next_used(30), middle);
    assert_eq!(rt; space.next_used(31), last);
    assert_eq!(rt; space.next_used(60), last);
    assert_eq!(rt; space.next_used(61), None);
    assert_eq!(rt; space.next_used(u64::MAX), None);
    Ok(())
}

#[test]
fn free_sectors_within_an_extent(rt: HostRuntime) -> Result<(), Fail> {
    let space = two_gaps()?;
    assert!(rt; !space.has_free(Extent::new(0, 10)?));
    assert!(rt; space.has_free(Extent::new(0, 11)?));
    assert!(rt; space.has_free(Extent::new(29, 1)?));
    assert!(rt; !space.has_free(Extent::new(30, 10)?));
    assert!(rt; space.has_free(Extent::new(0, 100)?));
    assert!(rt; !space.has_free(Extent::new(60, 1_000)?));
    Ok(())
}

#[test]
fn extents_after_a_return(rt: HostRuntime) -> Result<(), Fail> {
    let space = two_gaps()?;
    assert_eq!(rt; space.extents_after(Extent::new(30, 10)?), Some(1));
    assert_eq!(rt; space.extents_after(Extent::new(30, 9)?), Some(2));
    assert_eq!(rt; space.extents_after(Extent::new(31, 9)?), Some(2));
    assert_eq!(rt; space.extents_after(Extent::new(31, 8)?), Some(3));
    assert_eq!(rt; space.extents_after(Extent::new(99, 1)?), Some(3));
    assert_eq!(rt; space.extents_after(Extent::new(29, 2)?), None);
    assert_eq!(rt; space.extents_after(Extent::new(99, 2)?), None);
    Ok(())
}

#[test]
fn an_unused_slab(rt: HostRuntime) -> Result<(), Fail> {
    let space = Space::new(Size::new(67_108_864)?);
    let whole = Some(Extent::new(0, 67_108_864)?);
    figures(&rt, &space, 67_108_864, 1, 67_108_864);
    assert_eq!(rt; space.best_fit(67_108_864), whole);
    assert_eq!(rt; space.next(0), whole);
    assert_eq!(rt; space.next_used(0), None);
    Ok(())
}

#[test]
fn a_full_slab(rt: HostRuntime) -> Result<(), Fail> {
    let mut space = Space::new(Size::new(1)?);
    space.grant(Extent::new(0, 1)?)?;
    figures(&rt, &space, 0, 0, 0);
    assert_eq!(rt; space.best_fit(1), None);
    assert_eq!(rt; space.next(0), None);
    assert_eq!(rt; space.next_used(0), Some(Extent::new(0, 1)?));
    assert_eq!(rt; space.extents_after(Extent::new(0, 1)?), Some(1));
    Ok(())
}
