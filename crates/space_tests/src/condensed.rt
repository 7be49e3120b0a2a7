// The condensed log: its length, its words, a store with too few places for it, and its replay.
use crate::helpers::figures;
use slab_log::{Extent, Refusal, Size};
use space::Space;
use std::test::Fail;
use store::{ImageStore, LogStore, OwnStore, format as format_area};

// Of 50,000 sectors, 0 to 39,999 are in use: granted in two parts, and others given back again.
fn long_run() -> Result<Space, Fail> {
    let mut space = Space::new(Size::new(50_000)?);
    space.grant(Extent::new(100, 39_900)?)?;
    space.grant(Extent::new(45_000, 1_000)?)?;
    space.grant(Extent::new(0, 100)?)?;
    space.give_back(Extent::new(45_000, 1_000)?)?;
    Ok(space)
}

#[test]
fn a_long_run_is_two_words(rt: HostRuntime) -> Result<(), Fail> {
    let space = long_run()?;
    figures(&rt, &space, 10_000, 1, 10_000);
    assert_eq!(rt; space.condensed_len(), 2);
    let mut store = OwnStore::new();
    assert_eq!(rt; space.write_condensed(&mut store), Ok(2));
    assert_eq!(rt; store.count(), 2);
    assert_eq!(rt; store.word(0)?, 0x7FFF);
    assert_eq!(rt; store.word(1)?, 0x8000_1C3F);
    Ok(())
}

#[test]
fn the_words_follow_what_the_store_holds(rt: HostRuntime) -> Result<(), Fail> {
    let space = long_run()?;
    let mut store = OwnStore::new();
    store.add(77)?;
    assert_eq!(rt; space.write_condensed(&mut store), Ok(2));
    assert_eq!(rt; store.count(), 3);
    assert_eq!(rt; store.word(0)?, 77);
    assert_eq!(rt; store.word(1)?, 0x7FFF);
    assert_eq!(rt; store.word(2)?, 0x8000_1C3F);
    Ok(())
}

#[test]
fn too_few_places_are_refused(rt: HostRuntime) -> Result<(), Fail> {
    let space = long_run()?;
    // two places
    let mut area = [0u8; 32];
    format_area(&mut area)?;
    let mut store = ImageStore::attach(&mut area);
    store.add(77)?;
    let full = Refusal::LogFull {
        places: 1,
        needed: 2,
    };
    assert_eq!(rt; space.write_condensed(&mut store), Err(full));
    assert_eq!(rt; store.count(), 1);
    assert_eq!(rt; store.word(0)?, 77);
    store.empty();
    assert_eq!(rt; space.write_condensed(&mut store), Ok(2));
    assert_eq!(rt; store.word(1)?, 0x8000_1C3F);
    Ok(())
}

#[test]
fn it_replays_to_the_same_figures(rt: HostRuntime) -> Result<(), Fail> {
    let mut space = long_run()?;
    space.grant(Extent::new(49_999, 1)?)?;
    space.grant(Extent::new(41_000, 20)?)?;
    space.give_back(Extent::new(32_768, 1)?)?;
    let mut store = OwnStore::new();
    assert_eq!(rt; space.condensed_len(), 4);
    assert_eq!(rt; space.write_condensed(&mut store), Ok(4));
    let again = Space::replay(&store, space.size())?;
    figures(&rt, &space, 9_980, 3, 8_979);
    figures(&rt, &again, 9_980, 3, 8_979);
    assert_eq!(rt; again.next(32_768), space.next(32_768));
    assert_eq!(rt; again.next(32_769), space.next(32_769));
    assert_eq!(rt; again.next(41_020), space.next(41_020));
    Ok(())
}

#[test]
fn an_unused_slab_has_no_words(rt: HostRuntime) -> Result<(), Fail> {
    let space = Space::new(Size::new(50_000)?);
    assert_eq!(rt; space.condensed_len(), 0);
    let mut store = OwnStore::new();
    assert_eq!(rt; space.write_condensed(&mut store), Ok(0));
    assert_eq!(rt; store.count(), 0);
    Ok(())
}
