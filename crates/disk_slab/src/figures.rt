// What a slab tells of itself.

// The figures of a live slab.
#[derive(Clone, Copy, PartialEq, Eq, Debug, Default)]
pub struct Figures {
    // How many sectors are free.
    pub free: u64,
    // How many free extents there are.
    pub extents: usize,
    // The length of the longest free extent, 0 if there is none.
    pub longest: u64,
    // How many words the log has.
    pub words: usize,
}

// How many words of a log there are of each kind.
#[derive(Clone, Copy, PartialEq, Eq, Debug, Default)]
pub struct Tally {
    pub allocating: usize,
    pub freeing: usize,
    pub debug: usize,
}

// What an audit finds in a log without a fault.
#[derive(Clone, Copy, PartialEq, Eq, Debug)]
pub struct Audit {
    pub tally: Tally,
    // The figures after replay.
    pub figures: Figures,
    // How many words the condensed log has.
    pub condensed: usize,
}
