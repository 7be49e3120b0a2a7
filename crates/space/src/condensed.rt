// The condensed log of a space.
ghost use Rattle.std.specs.Prelude.{◌≡◌, ℕ, List, length};
ghost use Rattle.slab_log.specs.Condensed.{Condensed};
ghost use Rattle.space.specs.Free.{sectors_of, free_in, WritesCondensed};

use crate::space::Space;
use slab_log::{Effect, Refusal};
use store::{LogStore, add_extent, room_for};

impl Space {
    // How many words the condensed log has.
    pub fn condensed_len(&self) -> usize
        ensures { (condensed : List ℕ) → Condensed (sectors_of self.now) (free_in self.now) condensed → result ≡ length condensed }
    {
        // A loop and no `sum`: that owes a bound on each list that the iterator may give, and its proof is an induction over
        // the calls of an adapter, where the loop's invariant says the same of one place.
        let mut words = 0;
        for extent in self.used_runs() {
            words += extent.entries();
        }
        words
    }

    // Adds the condensed log to what a store holds, and answers how many words it has; or, where the store has too few
    // places for it, adds none.
    pub fn write_condensed<S: LogStore>(&self, out: &mut S) -> Result<usize, Refusal>
        ensures kept { S.capacity out.new ≡ S.capacity out.old }
        ensures writes { WritesCondensed self.now (S.capacity out.old) (S.words out.old) (S.words out.new) result }
    {
        let needed = self.condensed_len();
        room_for(out, needed)?;
        for extent in self.used_runs() {
            add_extent(out, Effect::Allocates, extent).unwrap();
        }
        Ok(needed)
    }
}
