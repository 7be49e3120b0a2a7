// A grant begins the shortest free extent that is long enough, and of several such the lowest.
use crate::helpers::{figures, frees, grants, next_is, on_fresh};
use disk_slab::Live;
use std::process::Abort;
use std::test::Fail;
use store::OwnStore;

// 10 to 29 and 40 to 59 are free, and the higher is given back first.
fn make_gaps(rt: &impl Abort, slab: &mut Live<OwnStore>) -> Result<(), Fail> {
    grants(rt, slab, 100, 0)?;
    frees(rt, slab, 40, 20)?;
    frees(rt, slab, 10, 20)?;
    figures(rt, slab, 40, 2, 20, 3);
    Ok(())
}

fn grants_fit(rt: &impl Abort, slab: &mut Live<OwnStore>) -> Result<(), Fail> {
    make_gaps(rt, slab)?;
    grants(rt, slab, 5, 10)?;
    grants(rt, slab, 16, 40)?;
    grants(rt, slab, 4, 56)?;
    next_is(rt, slab, 0, 15, 15)?;
    next_is(rt, slab, 15, 15, 15)?;
    assert_eq!(rt; slab.next(16), None);
    figures(rt, slab, 15, 1, 15, 6);
    Ok(())
}

#[test]
fn grants_begin_the_best_fit(rt: HostRuntime) -> Result<(), Fail> {
    on_fresh(100, |slab| grants_fit(&rt, slab))
}
