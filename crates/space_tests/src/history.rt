// A log of 10,000 words, of a random history, replays to what a plain map of the sectors says, and so does its condensed log.
use samples::Random;
use slab_log::{Effect, Extent, Size};
use space::Space;
use std::process::Abort;
use std::test::Fail;
use store::{ImageStore, LogStore, OwnStore, add_extent, format as format_area};

const SECTORS: usize = 512;

const WORDS: usize = 10_000;

// A header of 16 bytes, and 8 for each word.
const BYTES: usize = 80_016;

fn is_free(map: &[bool], sector: usize) -> bool {
    map.get(sector).copied().unwrap_or(false)
}

// How many sectors from `start` on, of at most `want`, are all free or all in use.
fn alike(map: &[bool], start: usize, want: usize) -> usize {
    let free = is_free(map, start);
    (1..want)
        .find(|n| is_free(map, start.saturating_add(*n)) != free)
        .unwrap_or(want)
}

fn mark(map: &mut [bool], start: usize, n: usize, free: bool) {
    for sector in map.iter_mut().skip(start).take(n) {
        *sector = free;
    }
}

// Allocates or frees an extent of 1 to 8 sectors, as the map allows.
fn one_change<S: LogStore>(store: &mut S, map: &mut [bool], random: u64) -> Result<(), Fail> {
    let start = (random >> 40) as usize % 505;
    let want = (random >> 20) as usize % 8 + 1;
    let n = alike(map, start, want);
    let extent = Extent::new(start as u64, n as u64)?;
    if is_free(map, start) {
        add_extent(store, Effect::Allocates, extent)?;
        mark(map, start, n, false);
    } else {
        add_extent(store, Effect::Frees, extent)?;
        mark(map, start, n, true);
    }
    Ok(())
}

// Fills the store with the words of a history.
fn write_history<S: LogStore>(
    rt: &impl Abort,
    store: &mut S,
    map: &mut [bool],
    seed: u64,
) -> Result<(), Fail> {
    for random in Random::from_seed(seed).take(WORDS) {
        one_change(store, map, random)?;
    }
    assert_eq!(rt; store.count(), WORDS);
    assert_eq!(rt; store.capacity(), WORDS);
    Ok(())
}

// How many sectors of the map are free.
fn count(map: &[bool]) -> u64 {
    map.iter().filter(|free| **free).count() as u64
}

// How many runs of free sectors it has.
fn runs(map: &[bool]) -> usize {
    map.split(|free| !*free)
        .filter(|run| !run.is_empty())
        .count()
}

// The length of its longest run.
fn longest(map: &[bool]) -> u64 {
    map.split(|free| !*free)
        .map(|run| run.len())
        .max()
        .unwrap_or(0) as u64
}

fn agrees(rt: &impl Abort, space: &Space, map: &[bool]) -> Result<(), Fail> {
    assert_eq!(rt; space.free_sectors(), count(map));
    assert_eq!(rt; space.free_extents(), runs(map));
    assert_eq!(rt; space.longest(), longest(map));
    for (s, free) in map.iter().enumerate() {
        let sector = Extent::new(s as u64, 1)?;
        assert_eq!(rt; space.has_free(sector), *free, "{}", s);
    }
    Ok(())
}

// The condensed log of a space leaves the same sectors.
fn condensed_agrees(rt: &impl Abort, space: &Space, map: &[bool]) -> Result<(), Fail> {
    let mut log = OwnStore::new();
    let words = space.write_condensed(&mut log)?;
    assert_eq!(rt; log.count(), words);
    let again = Space::replay(&log, space.size())?;
    agrees(rt, &again, map)
}

// Writes a history into the area, and replays it.
fn history_agrees(rt: &impl Abort, area: &mut [u8], seed: u64) -> Result<(), Fail> {
    format_area(area)?;
    let mut map = [true; SECTORS];
    let mut store = ImageStore::attach(area);
    write_history(rt, &mut store, &mut map, seed)?;
    let space = Space::replay(&store, Size::new(SECTORS as u64)?)?;
    agrees(rt, &space, &map)?;
    condensed_agrees(rt, &space, &map)
}

#[test]
fn random_histories_agree_with_a_map(rt: HostRuntime) -> Result<(), Fail> {
    let mut area = vec![in rt.alloc(); 0u8; BYTES]?;
    history_agrees(&rt, &mut area, 1)?;
    history_agrees(&rt, &mut area, 20_240_229)?;
    history_agrees(&rt, &mut area, u64::MAX)
}
