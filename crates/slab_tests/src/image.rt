// A slab over an area of bytes: what one use of it leaves there, the next one finds.
use crate::helpers::{figures, frees, grants, next_is, refuses_return, refuses_want};
use disk_slab::{Cold, Live};
use slab_log::{Refusal, Size};
use std::process::Abort;
use std::test::Fail;
use store::{ImageStore, LogStore, check as check_header, format as format_area};

// Fills three places.
fn first_calls<S: LogStore>(rt: &impl Abort, slab: &mut Live<S>) -> Result<(), Fail> {
    grants(rt, slab, 40_000, 0)?;
    let full = Refusal::LogFull {
        places: 1,
        needed: 2,
    };
    refuses_return(rt, slab, 0, 40_000, full)?;
    refuses_want(rt, slab, 40_000, full);
    frees(rt, slab, 0, 1)?;
    figures(rt, slab, 60_001, 2, 60_000, 3);
    Ok(())
}

// Condenses the log to two words.
fn second_calls<S: LogStore>(rt: &impl Abort, slab: &mut Live<S>) -> Result<(), Fail> {
    assert_eq!(rt; slab.fault(), None);
    figures(rt, slab, 60_001, 2, 60_000, 3);
    assert_eq!(rt; slab.condense(), Ok(2));
    next_is(rt, slab, 0, 0, 1)?;
    next_is(rt, slab, 1, 40_000, 60_000)
}

// Two uses of a store: one function that takes the calls as a closure, as `on_fresh`, was tried; over any store its bound cannot be stated yet.
fn use_first<S: LogStore>(rt: &impl Abort, store: S, size: Size) -> (S, Result<(), Fail>) {
    let mut slab = Cold::open(store, size).load();
    let done = first_calls(rt, &mut slab);
    (slab.close(), done)
}

fn use_again<S: LogStore>(rt: &impl Abort, store: S, size: Size) -> (S, Result<(), Fail>) {
    let mut slab = Cold::open(store, size).load();
    let done = second_calls(rt, &mut slab);
    (slab.close(), done)
}

#[test]
fn a_slab_is_found_again_in_the_same_bytes(rt: HostRuntime) -> Result<(), Fail> {
    let size = Size::new(100_000)?;
    // three places
    let mut area = [0u8; 40];
    format_area(&mut area)?;
    let (store, first) = use_first(&rt, ImageStore::attach(&mut area), size);
    let _ = store.detach();
    first?;
    assert_eq!(rt; check_header(&area)?.count, 3);
    let (store, second) = use_again(&rt, ImageStore::attach(&mut area), size);
    let _ = store.detach();
    second?;
    assert_eq!(rt; check_header(&area)?.count, 2);
    Ok(())
}
