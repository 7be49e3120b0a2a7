// Near the most free extents: 1,023 of them may stand when a call is accepted, and 1,024 only in a log that is loaded.
use crate::helpers::{
    figures, free_teeth, frees, grants, next_is, on_fresh, on_fresh_and_again, refuses_return,
};
use disk_slab::{Cold, Live};
use samples::comb_of;
use slab_log::{Refusal, Size};
use std::process::Abort;
use std::test::Fail;
use store::OwnStore;

// 0, 2, .., 2,042 are free, and 2,050 to 4,095: 1,023 free extents.
fn make_comb(rt: &impl Abort, slab: &mut Live<OwnStore>) -> Result<(), Fail> {
    grants(rt, slab, 2_050, 0)?;
    free_teeth(slab, 0, 1_022)?;
    figures(rt, slab, 3_068, 1_023, 2_046, 1_023);
    Ok(())
}

fn return_into_comb(rt: &impl Abort, slab: &mut Live<OwnStore>) -> Result<(), Fail> {
    make_comb(rt, slab)?;
    refuses_return(rt, slab, 2_046, 1, Refusal::TooManyExtents)?;
    figures(rt, slab, 3_068, 1_023, 2_046, 1_023);
    // its right neighbour is free
    frees(rt, slab, 2_049, 1)?;
    figures(rt, slab, 3_069, 1_023, 2_047, 1_024);
    // its left neighbour is free
    frees(rt, slab, 2_043, 1)?;
    figures(rt, slab, 3_070, 1_023, 2_047, 1_025);
    // both are, which makes room for one more
    frees(rt, slab, 1, 1)?;
    figures(rt, slab, 3_071, 1_022, 2_047, 1_026);
    frees(rt, slab, 2_046, 1)?;
    figures(rt, slab, 3_072, 1_023, 2_047, 1_027);
    Ok(())
}

#[test]
fn at_1023_extents_a_lone_return_is_refused(rt: HostRuntime) -> Result<(), Fail> {
    on_fresh(4_096, |slab| return_into_comb(&rt, slab))
}

fn condense_comb(rt: &impl Abort, slab: &mut Live<OwnStore>) -> Result<(), Fail> {
    make_comb(rt, slab)?;
    assert_eq!(rt; slab.condense(), Ok(1_022));
    figures(rt, slab, 3_068, 1_023, 2_046, 1_022);
    Ok(())
}

fn comb_is_loaded(rt: &impl Abort, slab: &Live<OwnStore>) -> Result<(), Fail> {
    assert_eq!(rt; slab.fault(), None);
    next_is(rt, slab, 2_041, 2_042, 1)?;
    next_is(rt, slab, 2_043, 2_050, 2_046)?;
    figures(rt, slab, 3_068, 1_023, 2_046, 1_022);
    Ok(())
}

#[test]
fn at_1023_extents_a_condensed_log_is_loaded(rt: HostRuntime) -> Result<(), Fail> {
    on_fresh_and_again(
        4_096,
        |slab| condense_comb(&rt, slab),
        |slab| comb_is_loaded(&rt, slab),
    )?;
    Ok(())
}

// 32,770, 32,772, .., 34,812 are free, and 40,000 to 65,535: 1,023 free extents. The return of 1 to 32,769 is two words; after
// the first of them there are 1,024.
fn return_long(rt: &impl Abort, slab: &mut Live<OwnStore>) -> Result<(), Fail> {
    grants(rt, slab, 40_000, 0)?;
    free_teeth(slab, 32_770, 1_022)?;
    figures(rt, slab, 26_558, 1_023, 25_536, 1_024);
    refuses_return(rt, slab, 1, 32_768, Refusal::TooManyExtents)?;
    frees(rt, slab, 1, 32_769)?;
    figures(rt, slab, 59_327, 1_023, 32_770, 1_026);
    Ok(())
}

fn long_is_loaded(rt: &impl Abort, slab: &Live<OwnStore>) -> Result<(), Fail> {
    assert_eq!(rt; slab.fault(), None);
    next_is(rt, slab, 0, 1, 32_770)?;
    figures(rt, slab, 59_327, 1_023, 32_770, 1_026);
    Ok(())
}

#[test]
fn a_long_return_that_joins_its_right_neighbour_is_loaded(rt: HostRuntime) -> Result<(), Fail> {
    on_fresh_and_again(
        65_536,
        |slab| return_long(&rt, slab),
        |slab| long_is_loaded(&rt, slab),
    )?;
    Ok(())
}

// 1, 3, .., 2,045 are in use.
fn with_1024(rt: &impl Abort, slab: &mut Live<OwnStore>) -> Result<(), Fail> {
    assert_eq!(rt; slab.fault(), None);
    figures(rt, slab, 3_073, 1_024, 2_050, 1_023);
    assert_eq!(rt; slab.condense(), Err(Refusal::TooManyExtents));
    figures(rt, slab, 3_073, 1_024, 2_050, 1_023);
    grants(rt, slab, 2, 2_046)?;
    // its right neighbour is free
    refuses_return(rt, slab, 2_047, 1, Refusal::TooManyExtents)?;
    // both neighbours are
    frees(rt, slab, 1, 1)?;
    figures(rt, slab, 3_072, 1_023, 2_048, 1_025);
    assert_eq!(rt; slab.condense(), Ok(1_022));
    Ok(())
}

#[test]
fn a_log_with_1024_extents_is_loaded_and_not_condensed(rt: HostRuntime) -> Result<(), Fail> {
    let size = Size::new(4_096)?;
    let mut slab = Cold::open(comb_of(1_023)?, size).load();
    let done = with_1024(&rt, &mut slab);
    let _ = slab.close();
    done
}
