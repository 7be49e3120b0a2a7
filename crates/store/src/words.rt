// The words of any store, one after the other.
ghost use Rattle.std.specs.Prelude.{◌≡◌, drop};
ghost use Rattle.std.specs.Iterator.{YieldsFirst, item_count};

use crate::log_store::LogStore;

// What is left of the words of a store.
#[derive(Drop)]
pub struct Words<'a, S: LogStore> {
    store: &'a S,
    // How many words have been given. This count is all that `next` changes: a range of places would count the same.
    given: usize,
}

impl<'a, S: LogStore> Words<'a, S> {
    // The words of a store, in order.
    pub fn of(store: &'a S) -> Words<'a, S>
        ensures { drop result.given (S.words result.store.now) ≡ S.words store.now }
    {
        Words { store, given: 0 }
    }
}

impl<'a, S: LogStore> Iterator for Words<'a, S> {
    type Item = u64;

    ghost next_gives = { YieldsFirst (λ it. drop it.given (S.words it.store.now)) };

    ghost remaining = { item_count (λ it. drop it.given (S.words it.store.now)) };

    fn next(&mut self) -> Option<u64> {
        let word = self.store.word(self.given).ok()?;
        self.given += 1;
        Some(word)
    }
}
