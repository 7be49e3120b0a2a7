// What every store of a log's words offers: a list of words, added at the end, and a capacity that never changes.
ghost use Rattle.std.specs.Prelude.{◌≡◌, ℕ, ◌^◌, ◌<◌, ◌≤◌, List, [], length};
ghost use Rattle.store.specs.Answers.{Reads, Adds};

use slab_log::Refusal;

pub trait LogStore {
    // How many words the store can hold.
    ghost capacity: { Self → ℕ };

    // The words that it holds, in the order in which they were added.
    ghost words: { Self → List ℕ };

    // The words have places.
    ghost bounded: { (s : Self) → length (words s) ≤ capacity s };

    // The capacity is a number of the machine.
    ghost fits: { (s : Self) → capacity s < 2 ^ 64 };

    // How many words there are.
    fn count(&self) -> usize
        ensures { result ≡ length (words self.now) };

    // How many words there can be.
    fn capacity(&self) -> usize
        ensures { result ≡ capacity self.now };

    // The word at the index i, where there is one.
    fn word(&self, i: usize) -> Result<u64, Refusal>
        ensures { Reads (words self.now) i result };

    // Adds the word at the end, where there is a place. That the capacity stays ties two moments of a lent store, which no type
    // can, so each call that adds says it.
    fn add(&mut self, w: u64) -> Result<(), Refusal>
        ensures kept { capacity self.new ≡ capacity self.old }
        ensures adds { Adds (capacity self.old) (words self.old) (words self.new) w result };

    // Removes every word.
    fn empty(&mut self)
        ensures kept { capacity self.new ≡ capacity self.old }
        ensures emptied { words self.new ≡ [] };
}
