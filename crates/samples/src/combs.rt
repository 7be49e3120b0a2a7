// Stores with the log of a comb: of a slab each second sector is in use.
ghost use Rattle.std.specs.Prelude.{◌≡◌, ◌<◌, IfOk, IfErr};
ghost use Rattle.slab_log.specs.declared.refusal.Refusal.TheVariants.{LogFull};
ghost use Rattle.store.specs.Own.{own_places};
ghost use Rattle.samples.specs.Teeth.{comb};

use slab_log::{Effect, Extent, Refusal};
use store::{OwnStore, add_extent};

// An own store with the log that takes the sectors 1, 3, .., so many of them; it is refused where they are more than it has places for.
pub fn comb_of(teeth: u16) -> Result<OwnStore, Refusal>
    ensures words { IfOk result (λ store. store.words.items ≡ comb teeth) }
    ensures full { IfErr result (λ e. (own_places < teeth) × (e ≡ LogFull 0 1)) }
{
    let mut store = OwnStore::new();
    for tooth in 0..u64::from(teeth) {
        let extent = Extent::new(2 * tooth + 1, 1)?;
        add_extent(&mut store, Effect::Allocates, extent)?;
    }
    Ok(store)
}
