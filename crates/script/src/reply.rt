// What a line of a script is answered with.
use slab_log::Refusal;

#[derive(Clone, Copy, PartialEq, Eq, Debug)]
pub enum Reply {
    // ok
    Done,
    // at: the start of a grant.
    At(u64),
    // words: how many the condensed log has.
    Words(usize),
    // free, extents, longest, words
    Figures(disk_slab::Figures),
    // no: the refusal's number.
    No(Refusal),
}
