// Each fault of a log stops its replay at the place of the word that has it.
use crate::helpers::{stop_at, stop_of};
use samples::comb_of;
use slab_log::{Effect, Extent, Fault, Size, Stop};
use std::test::Fail;
use store::add_extent;

// Allocates the sectors 50 to 59.
const ALLOCATE: u64 = 0x0032_0009;

// Frees them.
const FREE: u64 = 0x0032_8009;

const NO_KIND: u64 = 0xC000_0000_0000_0000;

fn stop(fault: Fault, place: usize) -> Option<Stop> {
    Some(Stop { fault, place })
}

#[test]
fn a_sound_log_has_no_fault(rt: HostRuntime) -> Result<(), Fail> {
    assert_eq!(rt; stop_at(&[], 100)?, None);
    assert_eq!(rt; stop_at(&[ALLOCATE, FREE, ALLOCATE], 100)?, None);
    assert_eq!(rt; stop_at(&[ALLOCATE, FREE, ALLOCATE], 60)?, None);
    Ok(())
}

#[test]
fn a_word_of_no_kind(rt: HostRuntime) -> Result<(), Fail> {
    assert_eq!(rt; stop_at(&[NO_KIND], 100)?, stop(Fault::Kind, 0));
    assert_eq!(rt;
        stop_at(&[ALLOCATE, FREE, NO_KIND, ALLOCATE], 100)?,
        stop(Fault::Kind, 2)
    );
    assert_eq!(rt;
        stop_at(&[ALLOCATE, u64::MAX, NO_KIND], 100)?,
        stop(Fault::Kind, 1)
    );
    Ok(())
}

#[test]
fn an_entry_that_ends_beyond_the_slab(rt: HostRuntime) -> Result<(), Fail> {
    assert_eq!(rt; stop_at(&[ALLOCATE], 59)?, stop(Fault::Bounds, 0));
    // 99 and 100
    assert_eq!(rt;
        stop_at(&[ALLOCATE, FREE, 0x0063_0001], 100)?,
        stop(Fault::Bounds, 2)
    );
    assert_eq!(rt; stop_at(&[ALLOCATE, FREE, 0x0063_0001], 101)?, None);
    assert_eq!(rt;
        stop_at(&[ALLOCATE, 0x0063_8001], 100)?,
        stop(Fault::Bounds, 1)
    );
    assert_eq!(rt;
        stop_at(&[ALLOCATE, 0x7FFF_FFFF_FFFF_FFFF], 100)?,
        stop(Fault::Bounds, 1)
    );
    Ok(())
}

#[test]
fn an_allocation_of_a_sector_in_use(rt: HostRuntime) -> Result<(), Fail> {
    assert_eq!(rt; stop_at(&[ALLOCATE, ALLOCATE], 100)?, stop(Fault::Taken, 1));
    // 59 and 60
    assert_eq!(rt;
        stop_at(&[ALLOCATE, FREE, ALLOCATE, 0x003B_0001], 100)?,
        stop(Fault::Taken, 3)
    );
    // 49 and 50
    assert_eq!(rt;
        stop_at(&[ALLOCATE, 0x0031_0001, FREE], 100)?,
        stop(Fault::Taken, 1)
    );
    // 40 to 69
    assert_eq!(rt;
        stop_at(&[ALLOCATE, 0x0028_001D], 100)?,
        stop(Fault::Taken, 1)
    );
    Ok(())
}

#[test]
fn a_return_of_a_free_sector(rt: HostRuntime) -> Result<(), Fail> {
    assert_eq!(rt; stop_at(&[FREE], 100)?, stop(Fault::Again, 0));
    assert_eq!(rt;
        stop_at(&[ALLOCATE, FREE, FREE, NO_KIND], 100)?,
        stop(Fault::Again, 2)
    );
    // 59 and 60
    assert_eq!(rt;
        stop_at(&[ALLOCATE, 0x003B_8001], 100)?,
        stop(Fault::Again, 1)
    );
    // 49 and 50
    assert_eq!(rt;
        stop_at(&[ALLOCATE, 0x0031_8001], 100)?,
        stop(Fault::Again, 1)
    );
    Ok(())
}

#[test]
fn one_cut_too_many(rt: HostRuntime) -> Result<(), Fail> {
    let size = Size::new(4_096)?;
    // it leaves 1,024 free extents
    let mut store = comb_of(1_023)?;
    assert_eq!(rt; stop_of(&store, size), None);
    add_extent(&mut store, Effect::Allocates, Extent::new(3_000, 1)?)?;
    add_extent(&mut store, Effect::Allocates, Extent::new(3_002, 1)?)?;
    assert_eq!(rt; stop_of(&store, size), stop(Fault::Crowded, 1_023));
    Ok(())
}

#[test]
fn one_lone_return_too_many(rt: HostRuntime) -> Result<(), Fail> {
    let size = Size::new(4_096)?;
    let mut store = comb_of(1_023)?;
    add_extent(&mut store, Effect::Allocates, Extent::new(2_046, 10)?)?;
    assert_eq!(rt; stop_of(&store, size), None);
    add_extent(&mut store, Effect::Frees, Extent::new(2_050, 1)?)?;
    assert_eq!(rt; stop_of(&store, size), stop(Fault::Crowded, 1_024));
    Ok(())
}
