// An extent of sectors.
ghost use Rattle.std.specs.Prelude.{◌+◌, ◌≤◌};
ghost use Rattle.slab_log.specs.Limits.{most_sectors};

// The sectors from `start` to `start + length - 1`: at least one, and none at or past the limit.
#[derive(Clone, Copy, PartialEq, Eq, Debug)]
pub struct Extent {
    pub start: u64,
    pub length: u64,
    ghost some: { 1 ≤ length },
    ghost ends: { start + length ≤ most_sectors },
}
