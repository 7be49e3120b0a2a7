// A caller that lends an area to an image store, and knows the area's words when the store is let go.
ghost use Rattle.store.specs.Answers.{Adds};
ghost use Rattle.store.specs.Image.{words_of, capacity_of};
ghost use Rattle.store.specs.Changes.{AddChanges};

use slab_log::Refusal;
use store::{ImageStore, LogStore};

// Adds a word to the image in the area.
pub(crate) fn record_word(area: &mut [u8], w: u64) -> Result<(), Refusal>
    ensures adds { Adds (capacity_of area.old) (words_of area.old) (words_of area.new) w result }
    ensures changes { AddChanges area.old area.new result }
{
    let mut store = ImageStore::attach(area);
    store.add(w)
}
