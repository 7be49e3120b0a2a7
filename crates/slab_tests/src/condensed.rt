// A run of 40,000 sectors in use is two words of a condensed log, and is in use when that log is loaded.
use crate::helpers::{figures, frees, grants, on_fresh, on_fresh_and_again, refuses_want};
use disk_slab::Live;
use slab_log::Refusal;
use std::process::Abort;
use std::test::Fail;
use store::{LogStore, OwnStore};

fn condense_long(rt: &impl Abort, slab: &mut Live<OwnStore>) -> Result<(), Fail> {
    grants(rt, slab, 100, 0)?;
    grants(rt, slab, 39_900, 100)?;
    grants(rt, slab, 5, 40_000)?;
    frees(rt, slab, 40_000, 5)?;
    figures(rt, slab, 10_000, 1, 10_000, 5);
    assert_eq!(rt; slab.condense(), Ok(2));
    figures(rt, slab, 10_000, 1, 10_000, 2);
    Ok(())
}

fn grant_the_rest(rt: &impl Abort, slab: &mut Live<OwnStore>) -> Result<(), Fail> {
    assert_eq!(rt; slab.fault(), None);
    figures(rt, slab, 10_000, 1, 10_000, 2);
    refuses_want(rt, slab, 10_001, Refusal::NoSpace);
    grants(rt, slab, 10_000, 40_000)?;
    refuses_want(rt, slab, 1, Refusal::NoSpace);
    figures(rt, slab, 0, 0, 0, 3);
    Ok(())
}

#[test]
fn a_long_run_in_use_stays_in_use(rt: HostRuntime) -> Result<(), Fail> {
    let store = on_fresh_and_again(
        50_000,
        |slab| condense_long(&rt, slab),
        |slab| grant_the_rest(&rt, slab),
    )?;
    assert_eq!(rt; store.word(0)?, 0x7FFF);
    assert_eq!(rt; store.word(1)?, 0x8000_1C3F);
    Ok(())
}

fn nothing_to_keep(rt: &impl Abort, slab: &mut Live<OwnStore>) -> Result<(), Fail> {
    let extent = slab.allocate(7)?;
    slab.free(extent)?;
    assert_eq!(rt; slab.condense(), Ok(0));
    figures(rt, slab, 50, 1, 50, 0);
    Ok(())
}

#[test]
fn with_nothing_in_use_no_word_is_left(rt: HostRuntime) -> Result<(), Fail> {
    on_fresh(50, |slab| nothing_to_keep(&rt, slab))
}
