// The line of a script whose end has not been read yet.
use arrayvec::ArrayVec;

// One byte more than a line may have, so that a line that is too long stays too long.
pub(crate) const MOST_KEPT: usize = 65;

#[derive(Drop)]
pub struct Feed {
    pub(crate) line: ArrayVec<u8, MOST_KEPT>,
}
