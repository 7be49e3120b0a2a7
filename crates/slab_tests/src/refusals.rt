// The refusals of a slab that runs; what is refused changes nothing.
use crate::helpers::{figures, frees, grants, next_is, on_fresh, refuses_return, refuses_want};
use disk_slab::Live;
use slab_log::Refusal;
use std::process::Abort;
use std::test::Fail;
use store::OwnStore;

fn refuses_wants(rt: &impl Abort, slab: &mut Live<OwnStore>) -> Result<(), Fail> {
    refuses_want(rt, slab, 0, Refusal::NoWant);
    refuses_want(rt, slab, 101, Refusal::NoSpace);
    refuses_want(rt, slab, u64::MAX, Refusal::NoSpace);
    figures(rt, slab, 100, 1, 100, 0);
    grants(rt, slab, 100, 0)?;
    refuses_want(rt, slab, 1, Refusal::NoSpace);
    refuses_want(rt, slab, 0, Refusal::NoWant);
    figures(rt, slab, 0, 0, 0, 1);
    assert_eq!(rt; slab.fault(), None);
    Ok(())
}

#[test]
fn wants_of_none_or_too_many_sectors(rt: HostRuntime) -> Result<(), Fail> {
    on_fresh(100, |slab| refuses_wants(&rt, slab))
}

// 0 to 9 are in use.
fn refuses_returns(rt: &impl Abort, slab: &mut Live<OwnStore>) -> Result<(), Fail> {
    grants(rt, slab, 10, 0)?;
    // free sectors of it are not looked at
    refuses_return(rt, slab, 50, 51, Refusal::BeyondSlab)?;
    refuses_return(rt, slab, 100, 1, Refusal::BeyondSlab)?;
    refuses_return(rt, slab, 99, 1, Refusal::AlreadyFree)?;
    refuses_return(rt, slab, 9, 2, Refusal::AlreadyFree)?;
    figures(rt, slab, 90, 1, 90, 1);
    frees(rt, slab, 2, 3)?;
    refuses_return(rt, slab, 0, 10, Refusal::AlreadyFree)?;
    figures(rt, slab, 93, 2, 90, 2);
    next_is(rt, slab, 0, 2, 3)
}

#[test]
fn returns_beyond_the_slab_or_of_free_sectors(rt: HostRuntime) -> Result<(), Fail> {
    on_fresh(100, |slab| refuses_returns(&rt, slab))
}

// Two words for each turn.
fn fill(slab: &mut Live<OwnStore>, turns: usize) -> Result<(), Fail> {
    for _ in 0..turns {
        let extent = slab.allocate(1)?;
        slab.free(extent)?;
    }
    Ok(())
}

fn full(places: usize, needed: usize) -> Refusal {
    Refusal::LogFull { places, needed }
}

// 0 to 39,999 are in use, and 40,000: 3 words.
fn refuses_without_places(rt: &impl Abort, slab: &mut Live<OwnStore>) -> Result<(), Fail> {
    grants(rt, slab, 40_000, 0)?;
    grants(rt, slab, 1, 40_000)?;
    fill(slab, 2_046)?;
    assert_eq!(rt; slab.figures().words, 4_095);
    refuses_return(rt, slab, 0, 40_000, full(1, 2))?;
    refuses_want(rt, slab, 40_000, full(1, 2));
    figures(rt, slab, 59_999, 1, 59_999, 4_095);
    frees(rt, slab, 40_000, 1)?;
    refuses_return(rt, slab, 0, 40_000, full(0, 2))?;
    refuses_want(rt, slab, 1, full(0, 1));
    figures(rt, slab, 60_000, 1, 60_000, 4_096);
    assert_eq!(rt; slab.condense(), Ok(2));
    figures(rt, slab, 60_000, 1, 60_000, 2);
    grants(rt, slab, 1, 40_000)?;
    frees(rt, slab, 0, 40_000)?;
    figures(rt, slab, 99_999, 2, 59_999, 5);
    Ok(())
}

#[test]
fn a_full_log_until_it_is_condensed(rt: HostRuntime) -> Result<(), Fail> {
    on_fresh(100_000, |slab| refuses_without_places(&rt, slab))
}
