// Stores of given words.
ghost use Rattle.std.specs.Prelude.{◌≡◌, ◌<◌, length, IfOk, IfErr};
ghost use Rattle.slab_log.specs.declared.refusal.Refusal.TheVariants.{StoreFull};
ghost use Rattle.store.specs.Own.{own_places};

use slab_log::Refusal;
use store::{LogStore, OwnStore};

// An own store with these words; it is refused where they are more than it has places for.
pub fn store_of(words: &[u64]) -> Result<OwnStore, Refusal>
    ensures words { IfOk result (λ store. store.words.items ≡ words.now) }
    ensures full { IfErr result (λ e. (own_places < length words.now) × (e ≡ StoreFull)) }
{
    let mut store = OwnStore::new();
    for word in words {
        store.add(*word)?;
    }
    Ok(store)
}
