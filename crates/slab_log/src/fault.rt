// Why a replay ends early.
use thiserror::Error;

// What is wrong with a word of a log.
#[derive(Clone, Copy, PartialEq, Eq, Debug, Error)]
pub enum Fault {
    // The word is neither an entry nor a debug word.
    #[error("kind")]
    Kind,
    // The entry ends beyond the slab.
    #[error("bounds")]
    Bounds,
    // An allocating entry covers a sector that is not free.
    #[error("taken")]
    Taken,
    // A freeing entry covers a sector that is free.
    #[error("again")]
    Again,
    // After the word there are more free extents than a slab may have.
    #[error("crowded")]
    Crowded,
}

// A fault, and the place in the log of the word that has it.
#[derive(Clone, Copy, PartialEq, Eq, Debug, Error)]
#[error("fault {fault} of the word at place {place}")]
pub struct Stop {
    pub fault: Fault,
    pub place: usize,
}
