// The entries of an extent, added to a store.
ghost use Rattle.std.specs.Prelude.{◌≡◌};
ghost use Rattle.slab_log.specs.Words.{words_of};
ghost use Rattle.store.specs.Answers.{AddsAll};

use crate::log_store::LogStore;
use crate::room::room_for;
use slab_log::{Effect, Extent, Refusal};

// Adds all words of the extent's entries, or, where the store has too few places for them, none.
pub fn add_extent<S: LogStore>(store: &mut S, effect: Effect, extent: Extent) -> Result<(), Refusal>
    ensures kept { S.capacity store.new ≡ S.capacity store.old }
    ensures adds { AddsAll (S.capacity store.old) (S.words store.old) (S.words store.new) (words_of effect extent.start extent.length) result }
{
    room_for(store, extent.entries())?;
    for word in extent.words(effect) {
        store.add(word).unwrap();
    }
    Ok(())
}
