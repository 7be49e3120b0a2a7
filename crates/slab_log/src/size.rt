// The size of a slab.
ghost use Rattle.std.specs.Prelude.{◌≤◌};
ghost use Rattle.slab_log.specs.Limits.{most_sectors};

// How many sectors a slab has: at least one, and at most the limit.
#[derive(Clone, Copy, PartialEq, Eq, Debug)]
pub struct Size {
    pub sectors: u64,
    ghost some: { 1 ≤ sectors },
    ghost most: { sectors ≤ most_sectors },
}
