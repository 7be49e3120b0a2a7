// The return of 32,769 sectors, which are two entries of a log, near the most free extents.
use crate::helpers::{figures, stop_of};
use slab_log::{Effect, Extent, Fault, Size, Stop};
use space::Space;
use std::test::Fail;
use store::{LogStore, OwnStore, add_extent};

const SECTORS: u64 = 65_536;

// A space, and the log of its history.
#[derive(Drop)]
struct Slab {
    space: Space,
    log: OwnStore,
}

// The two changes, each with its entries: one function over the effect would choose between the calls.
fn grant(slab: &mut Slab, start: u64, length: u64) -> Result<(), Fail> {
    let extent = Extent::new(start, length)?;
    slab.space.grant(extent)?;
    add_extent(&mut slab.log, Effect::Allocates, extent)?;
    Ok(())
}

fn give_back(slab: &mut Slab, start: u64, length: u64) -> Result<(), Fail> {
    let extent = Extent::new(start, length)?;
    slab.space.give_back(extent)?;
    add_extent(&mut slab.log, Effect::Frees, extent)?;
    Ok(())
}

// In use are the sectors up to 32,769, and `cuts` single ones behind: 32,771, 32,773 and so on.
fn cut_slab(cuts: u64) -> Result<Slab, Fail> {
    let mut slab = Slab {
        space: Space::new(Size::new(SECTORS)?),
        log: OwnStore::new(),
    };
    grant(&mut slab, 0, 32_770)?;
    for i in 0..cuts {
        grant(&mut slab, i.wrapping_mul(2).wrapping_add(32_771), 1)?;
    }
    Ok(slab)
}

#[test]
fn a_return_that_joins_its_right_neighbour(rt: HostRuntime) -> Result<(), Fail> {
    let mut slab = cut_slab(1_022)?;
    figures(&rt, &slab.space, 31_744, 1_023, 30_722);
    assert!(rt; !slab.space.has_free(Extent::new(0, 32_770)?));
    assert!(rt; slab.space.has_free(Extent::new(32_770, 1)?));
    assert_eq!(rt;
        slab.space.extents_after(Extent::new(1, 32_769)?),
        Some(1_023)
    );
    give_back(&mut slab, 1, 32_769)?;
    figures(&rt, &slab.space, 64_513, 1_023, 32_770);
    Ok(())
}

#[test]
fn its_log_replays(rt: HostRuntime) -> Result<(), Fail> {
    let mut slab = cut_slab(1_022)?;
    assert_eq!(rt; slab.log.count(), 1_024);
    give_back(&mut slab, 1, 32_769)?;
    assert_eq!(rt; slab.log.count(), 1_026);
    let space = Space::replay(&slab.log, Size::new(SECTORS)?)?;
    figures(&rt, &space, 64_513, 1_023, 32_770);
    assert_eq!(rt; space.next(0), Some(Extent::new(1, 32_770)?));
    Ok(())
}

#[test]
fn between_its_words_there_are_1024_extents(rt: HostRuntime) -> Result<(), Fail> {
    let mut slab = cut_slab(1_022)?;
    give_back(&mut slab, 1, 32_769)?;
    let mut space = cut_slab(1_022)?.space;
    space.take_word(slab.log.word(1_024)?)?;
    figures(&rt, &space, 64_512, 1_024, 32_768);
    space.take_word(slab.log.word(1_025)?)?;
    figures(&rt, &space, 64_513, 1_023, 32_770);
    Ok(())
}

// In one step the return leaves 1,024 extents again, but its log is crowded after the first of its two words.
#[test]
fn with_1024_extents_before_only_the_whole_return_passes(rt: HostRuntime) -> Result<(), Fail> {
    let mut slab = cut_slab(1_023)?;
    assert_eq!(rt; slab.space.free_extents(), 1_024);
    assert_eq!(rt;
        slab.space.extents_after(Extent::new(1, 32_769)?),
        Some(1_024)
    );
    give_back(&mut slab, 1, 32_769)?;
    assert_eq!(rt; slab.space.free_extents(), 1_024);
    let stop = Stop {
        fault: Fault::Crowded,
        place: 1_025,
    };
    assert_eq!(rt; stop_of(&slab.log, Size::new(SECTORS)?), Some(stop));
    Ok(())
}
