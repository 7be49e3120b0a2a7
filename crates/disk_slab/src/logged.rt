// Changes of the free sectors together with the log that says them. The two are arguments: a struct that lends both names what a call
// leaves by position alone where it is given (`self.exit.1.0.now`), and owes a clause that it still lends the same two where it is lent.
ghost use Rattle.std.specs.Prelude.{◌≡◌};
ghost use Rattle.disk_slab.specs.View.{running};
ghost use Rattle.disk_slab.specs.Answers.{Allocates, after_allocate, Frees, after_free, Condenses, with_words};

use slab_log::{Effect, Extent, Refusal};
use space::Space;
use store::{LogStore, add_extent};

// From so many free extents on, a log may not be written that ends with them: its replay can pass one more on the way.
const MOST_EXTENTS: usize = 1024;

// Grants the front of the best fit.
pub(crate) fn grant<S: LogStore>(
    space: &mut Space,
    store: &mut S,
    want: u64,
) -> Result<Extent, Refusal>
    ensures answer { Allocates (running S.LogStore space.old store.old) want result }
    ensures leaves { running S.LogStore space.new store.new ≡ after_allocate (running S.LogStore space.old store.old) result }
{
    if want == 0 {
        return Err(Refusal::NoWant);
    }
    let fit = space.best_fit(want).ok_or(Refusal::NoSpace)?;
    let extent = Extent {
        start: fit.start,
        length: want,
    };
    add_extent(store, Effect::Allocates, extent)?;
    space.grant(extent).unwrap();
    Ok(extent)
}

// Takes an extent back.
pub(crate) fn give_back<S: LogStore>(
    space: &mut Space,
    store: &mut S,
    extent: Extent,
) -> Result<(), Refusal>
    ensures answer { Frees (running S.LogStore space.old store.old) extent result }
    ensures leaves { running S.LogStore space.new store.new ≡ after_free (running S.LogStore space.old store.old) extent result }
{
    // Why there is no such number is asked here: as an error of `extents_after` it would be a fault of replay, of which all but
    // two could not come, or an enum of two causes for this one call.
    let Some(standing) = space.extents_after(extent) else {
        if extent.start + extent.length > space.size().sectors {
            return Err(Refusal::BeyondSlab);
        }
        return Err(Refusal::AlreadyFree);
    };
    if standing >= MOST_EXTENTS {
        return Err(Refusal::TooManyExtents);
    }
    add_extent(store, Effect::Frees, extent)?;
    space.give_back(extent).unwrap();
    Ok(())
}

// Replaces the log with the condensed log.
pub(crate) fn condense<S: LogStore>(space: &Space, store: &mut S) -> Result<usize, Refusal>
    ensures kept { S.LogStore.capacity store.new ≡ S.LogStore.capacity store.old }
    ensures answer { Condenses (running S.LogStore space.now store.old) (S.LogStore.words store.new) result }
{
    if space.free_extents() >= MOST_EXTENTS {
        return Err(Refusal::TooManyExtents);
    }
    // The log is emptied first, so all places count.
    let needed = space.condensed_len();
    let places = store.capacity();
    if places < needed {
        return Err(Refusal::LogFull { places, needed });
    }
    store.empty();
    space.write_condensed(store)
}
