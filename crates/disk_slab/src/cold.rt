// The calls of a cold slab.
ghost use Rattle.std.specs.Prelude.{◌≡◌};
ghost use Rattle.disk_slab.specs.View.{view, loaded};
ghost use Rattle.disk_slab.specs.Audits.{Audits};

use crate::figures::Audit;
use crate::state::{Cold, Live};
use crate::summary::{figures_of, tally_of};
use slab_log::{Size, Stop};
use space::Space;
use store::LogStore;

impl<S: LogStore> Cold<S> {
    // A slab of the size over a store, whatever the store holds.
    pub fn open(store: S, size: Size) -> Cold<S>
        ensures store { result.store ≡ store }
        ensures size { result.size ≡ size }
    {
        Cold { store, size }
    }

    // Replays the log. The slab is live in any case: a fault leaves it stopped.
    pub fn load(self) -> Live<S>
        ensures store { result.store ≡ self.store }
        ensures loaded { view S.LogStore result ≡ loaded self.size.sectors (S.LogStore.capacity self.store) (S.LogStore.words self.store) }
    {
        let Cold { store, size } = self;
        let space = Space::replay(&store, size);
        Live { store, size, space }
    }

    // What the log holds, or its first fault. Nothing changes.
    pub fn audit(&self) -> Result<Audit, Stop>
        ensures { Audits self.now.size.sectors (S.LogStore.words self.now.store) result }
    {
        let space = Space::replay(&self.store, self.size)?;
        Ok(Audit {
            tally: tally_of(&self.store),
            figures: figures_of(&space, self.store.count()),
            condensed: space.condensed_len(),
        })
    }

    // The store, as it was handed in.
    pub fn close(self) -> S
        ensures { result ≡ self.store }
    {
        let Cold { store, size: _ } = self;
        store
    }
}
