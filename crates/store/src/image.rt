// A store whose words lie in an area of bytes that is lent to it.
ghost use Rattle.std.specs.Prelude.{◌≡◌, []};
ghost use Rattle.store.specs.Answers.{Adds};
ghost use Rattle.store.specs.Image.{words_of, capacity_of, image_bounded, image_fits};
ghost use Rattle.store.specs.Changes.{AddChanges, EmptyChanges};

use crate::layout::{add_to, capacity_of, count_of, empty_in, word_of};
use crate::log_store::LogStore;
use slab_log::Refusal;

// Over an area against the header rule the store has no place, and leaves the area as it is.
// The caller that lent the area has it back once the store is let go, and then knows its bytes: the clause `lender` of
// `add` and `empty` says that the store still holds the same reference.
#[derive(Drop)]
pub struct ImageStore<'a> {
    area: &'a mut [u8],
}

impl<'a> ImageStore<'a> {
    // A store over the area, whatever it holds.
    pub fn attach(area: &'a mut [u8]) -> ImageStore<'a>
        ensures { result.area ≡ area.entry }
    {
        Self { area }
    }

    // The area, as the store's calls have left it.
    pub fn detach(self) -> &'a mut [u8]
        ensures { result ≡ self.entry.area }
    {
        let ImageStore { area } = self;
        area
    }
}

impl<'a> LogStore for ImageStore<'a> {
    ghost capacity = { λ s. capacity_of s.area.now };

    ghost words = { λ s. words_of s.area.now };

    ghost bounded = { λ s. image_bounded s.area.now };

    ghost fits = { λ s. image_fits s.area.now };

    fn count(&self) -> usize {
        count_of(self.area)
    }

    fn capacity(&self) -> usize {
        capacity_of(self.area)
    }

    fn word(&self, i: usize) -> Result<u64, Refusal> {
        word_of(self.area, i)
    }

    fn add(&mut self, w: u64) -> Result<(), Refusal>
        ensures kept { capacity_of self.new.area.now ≡ capacity_of self.old.area.now }
        ensures adds { Adds (capacity_of self.old.area.now) (words_of self.old.area.now) (words_of self.new.area.now) w result }
        ensures changes { AddChanges self.old.area.now self.new.area.now result }
        ensures lender { self.new.area.ghost_name ≡ self.old.area.ghost_name }
    {
        add_to(self.area, w)
    }

    fn empty(&mut self)
        ensures kept { capacity_of self.new.area.now ≡ capacity_of self.old.area.now }
        ensures emptied { words_of self.new.area.now ≡ [] }
        ensures changes { EmptyChanges self.old.area.now self.new.area.now }
        ensures lender { self.new.area.ghost_name ≡ self.old.area.ghost_name }
    {
        empty_in(self.area);
    }
}
