// What several tests share: the figures of a space, and where a replay stops.
use samples::store_of;
use slab_log::{Size, Stop};
use space::Space;
use std::process::Abort;
use std::test::Fail;
use store::LogStore;

// How many sectors are free, in how many extents, and the length of the longest. A space tells them one by one; a struct of the three
// would only make each of 24 calls longer.
pub(crate) fn figures(rt: &impl Abort, space: &Space, sectors: u64, extents: usize, longest: u64) {
    assert_eq!(rt; space.free_sectors(), sectors);
    assert_eq!(rt; space.free_extents(), extents);
    assert_eq!(rt; space.longest(), longest);
}

// Where and why the replay of a store's log stops, or nothing where it does not.
pub(crate) fn stop_of<S: LogStore>(store: &S, size: Size) -> Option<Stop> {
    Space::replay(store, size).err()
}

// The same for a log of these words, on a slab of so many sectors.
pub(crate) fn stop_at(words: &[u64], sectors: u64) -> Result<Option<Stop>, Fail> {
    let store = store_of(words)?;
    Ok(stop_of(&store, Size::new(sectors)?))
}
