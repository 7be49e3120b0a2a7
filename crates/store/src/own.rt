// A store that holds its words itself, in an array of its own.
ghost use Rattle.std.specs.Prelude.{◌≡◌, ◌≤◌, [], length};
ghost use Rattle.std.proofs.Common.{lit<};
ghost use Rattle.store.specs.Own.{own_places};

use crate::log_store::LogStore;
use arrayvec::ArrayVec;
use slab_log::Refusal;

// How many words an own store holds at most.
pub const PLACES: usize = 4096;

#[derive(Drop)]
pub struct OwnStore {
    words: ArrayVec<u64, PLACES>,
    ghost within: { length words.items ≤ own_places },
}

impl OwnStore {
    // A store with no words. `Feed::new` of the script reads alike, but makes another type: they have an empty vector in common, and no more.
    pub fn new() -> OwnStore
        ensures { result.words.items ≡ [] }
    {
        OwnStore {
            words: ArrayVec::new(),
        }
    }
}

impl LogStore for OwnStore {
    ghost capacity = { λ _. own_places };

    ghost words = { λ s. s.words.items };

    ghost bounded = { λ s. s.within };

    ghost fits = { λ _. lit< tt };

    fn count(&self) -> usize {
        self.words.len()
    }

    fn capacity(&self) -> usize {
        PLACES
    }

    fn word(&self, i: usize) -> Result<u64, Refusal> {
        self.words.get(i).copied().ok_or(Refusal::NoWord)
    }

    fn add(&mut self, w: u64) -> Result<(), Refusal> {
        self.words.try_push(w).map_err(|_| Refusal::StoreFull)
    }

    fn empty(&mut self) {
        self.words.clear();
    }
}
