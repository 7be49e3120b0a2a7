// The calls of a live slab.
ghost use Rattle.std.specs.Prelude.{◌≡◌, ℕ};
ghost use Rattle.disk_slab.specs.View.{view};
ghost use Rattle.disk_slab.specs.Answers.{Allocates, after_allocate, Frees, after_free, Condenses, with_words, NeverFull, Shows, Follows};

use crate::figures::Figures;
use crate::logged::{condense, give_back, grant};
use crate::state::Live;
use crate::summary::figures_of;
use slab_log::{Extent, Refusal, Size, Stop};
use store::LogStore;

// A call matches on what was loaded, an arm for each case of its contract. For a change `as_mut` with `?` was tried: the check does not
// cover that loan. One step over a closure, for calls that are alike but for the call and its contract, would be no plainer.
impl<S: LogStore> Live<S> {
    // Grants the first `want` sectors of the free extent that they fit best, and logs the grant.
    pub fn allocate(&mut self, want: u64) -> Result<Extent, Refusal>
        ensures answer { Allocates (view S.LogStore self.old) want result }
        ensures leaves { view S.LogStore self.new ≡ after_allocate (view S.LogStore self.old) result }
    {
        match &mut self.space {
            Ok(space) => grant(space, &mut self.store, want),
            Err(stop) => Err(Refusal::Stopped(*stop)),
        }
    }

    // Takes an extent back, any whole or part of what is in hand, and logs the return.
    pub fn free(&mut self, extent: Extent) -> Result<(), Refusal>
        ensures answer { Frees (view S.LogStore self.old) extent result }
        ensures leaves { view S.LogStore self.new ≡ after_free (view S.LogStore self.old) extent result }
    {
        match &mut self.space {
            Ok(space) => give_back(space, &mut self.store, extent),
            Err(stop) => Err(Refusal::Stopped(*stop)),
        }
    }

    // Replaces the log with the condensed log, and answers how many words that has.
    pub fn condense(&mut self) -> Result<usize, Refusal>
        ensures answer { Condenses (view S.LogStore self.old) (S.LogStore.words self.new.store) result }
        ensures leaves { view S.LogStore self.new ≡ with_words (view S.LogStore self.old) (S.LogStore.words self.new.store) }
        ensures room { NeverFull result }
    {
        let space = self.space.as_ref().map_err(|stop| Refusal::Stopped(*stop))?;
        condense(space, &mut self.store)
    }

    // The figures; those of a stopped slab are 0, but for the number of words.
    pub fn figures(&self) -> Figures
        ensures { Shows (view S.LogStore self.now) result }
    {
        let words = self.store.count();
        match &self.space {
            Ok(space) => figures_of(space, words),
            Err(_) => Figures {
                words,
                ..Figures::default()
            },
        }
    }

    // The lowest free extent that begins at or after a sector.
    pub fn next(&self, sector: u64) -> Option<Extent>
        ensures { Follows (view S.LogStore self.now) sector result }
    {
        self.space.as_ref().ok()?.next(sector)
    }

    // The fault that stopped the slab.
    pub fn fault(&self) -> Option<Stop>
        ensures { result ≡ (view S.LogStore self.now).fault }
    {
        self.space.as_ref().err().copied()
    }

    // The size that the slab was opened at.
    pub fn size(&self) -> Size
        ensures { result.sectors ≡ (view S.LogStore self.now).size }
    {
        self.size
    }

    // The store, as the slab's calls have left it.
    pub fn close(self) -> S
        ensures { result ≡ self.store }
    {
        let Live {
            store,
            size: _,
            space: _,
        } = self;
        store
    }
}
