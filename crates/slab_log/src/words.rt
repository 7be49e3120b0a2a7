// The words of an extent, one after the other.
use crate::entry::Effect;
use crate::extent::Extent;

// What is left of the words of an extent's entries.
#[derive(Clone, Copy)]
pub struct EntryWords {
    pub(crate) extent: Extent,
    pub(crate) effect: Effect,
    // How many words have been given. This count is all that `next` changes: a range of places would count the same.
    pub(crate) given: usize,
}
