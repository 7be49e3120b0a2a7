// What several tests share: slabs over own stores, loading anew, and checked calls.
use disk_slab::{Cold, Figures, Live};
use slab_log::{Extent, Refusal, Size};
use std::process::Abort;
use std::test::Fail;
use store::{LogStore, OwnStore};

// A slab of which nothing is in use.
fn fresh(size: Size) -> Live<OwnStore> {
    Cold::open(OwnStore::new(), size).load()
}

// Calls on a slab of so many sectors of which nothing is in use, and closes it.
pub(crate) fn on_fresh<F: FnOnce(&mut Live<OwnStore>) -> Result<(), Fail>>(
    sectors: u64,
    calls: F,
) -> Result<(), Fail>
    requires { F.IsAlwaysCallable calls }
{
    let mut slab = fresh(Size::new(sectors)?);
    let done = calls(&mut slab);
    let _ = slab.close();
    done
}

// The slab closed, opened and loaded.
fn again<S: LogStore>(slab: Live<S>) -> Live<S> {
    let size = slab.size();
    Cold::open(slab.close(), size).load()
}

// Calls on a slab, where the calls before did not fail. An `and_then` in place of this function was tried: its closure gets no proof.
fn go_on<F: FnOnce(&mut Live<OwnStore>) -> Result<(), Fail>>(
    before: Result<(), Fail>,
    slab: &mut Live<OwnStore>,
    calls: F,
) -> Result<(), Fail>
    requires { F.IsAlwaysCallable calls }
{
    before?;
    calls(slab)
}

// The same as `on_fresh`, and then calls on the slab that its store loads to; the store is handed back.
pub(crate) fn on_fresh_and_again<
    F: FnOnce(&mut Live<OwnStore>) -> Result<(), Fail>,
    G: FnOnce(&mut Live<OwnStore>) -> Result<(), Fail>,
>(sectors: u64, before: F, after: G) -> Result<OwnStore, Fail>
    requires before { F.IsAlwaysCallable before }
    requires after { G.IsAlwaysCallable after }
{
    let mut slab = fresh(Size::new(sectors)?);
    let first = before(&mut slab);
    let mut slab = again(slab);
    let done = go_on(first, &mut slab, after);
    let store = slab.close();
    done?;
    Ok(store)
}

// What a slab tells of itself. Four numbers and no Figures, with which each of 32 calls takes ten lines in place of one.
pub(crate) fn figures<S: LogStore>(
    rt: &impl Abort,
    slab: &Live<S>,
    free: u64,
    extents: usize,
    longest: u64,
    words: usize,
) {
    let expected = Figures {
        free,
        extents,
        longest,
        words,
    };
    assert_eq!(rt; slab.figures(), expected);
}

// A want is granted from `start` on.
pub(crate) fn grants<S: LogStore>(
    rt: &impl Abort,
    slab: &mut Live<S>,
    want: u64,
    start: u64,
) -> Result<(), Fail> {
    assert_eq!(rt; slab.allocate(want), Ok(Extent::new(start, want)?));
    Ok(())
}

pub(crate) fn refuses_want<S: LogStore>(
    rt: &impl Abort,
    slab: &mut Live<S>,
    want: u64,
    refusal: Refusal,
) {
    assert_eq!(rt; slab.allocate(want), Err(refusal));
}

pub(crate) fn frees<S: LogStore>(
    rt: &impl Abort,
    slab: &mut Live<S>,
    start: u64,
    length: u64,
) -> Result<(), Fail> {
    assert_eq!(rt; slab.free(Extent::new(start, length)?), Ok(()));
    Ok(())
}

pub(crate) fn refuses_return<S: LogStore>(
    rt: &impl Abort,
    slab: &mut Live<S>,
    start: u64,
    length: u64,
    refusal: Refusal,
) -> Result<(), Fail> {
    assert_eq!(rt; slab.free(Extent::new(start, length)?), Err(refusal));
    Ok(())
}

// The next free extent from a sector on.
pub(crate) fn next_is<S: LogStore>(
    rt: &impl Abort,
    slab: &Live<S>,
    sector: u64,
    start: u64,
    length: u64,
) -> Result<(), Fail> {
    assert_eq!(rt; slab.next(sector), Some(Extent::new(start, length)?));
    Ok(())
}

// Of the sectors `first`, `first + 2`, `first + 4` and so on the one at a place, as an extent.
fn tooth(first: u64, place: u64) -> Result<Extent, Refusal> {
    Extent::new(place.wrapping_mul(2).wrapping_add(first), 1)
}

// Gives the first `n` teeth back.
pub(crate) fn free_teeth(slab: &mut Live<OwnStore>, first: u64, n: u64) -> Result<(), Fail> {
    for place in 0..n {
        slab.free(tooth(first, place)?)?;
    }
    Ok(())
}
