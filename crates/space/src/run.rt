// Sectors one behind the other, which a log or a caller names. They need not lie within the slab.
ghost use Rattle.std.specs.Prelude.{◌≡◌, ◌+◌, ◌^◌, ◌<◌, ◌≤◌};

use slab_log::Extent;

// The sectors from `start` to `start + len - 1`: at least one.
#[derive(Clone, Copy)]
pub(crate) struct SectorRun {
    pub(crate) start: u64,
    pub(crate) len: u64,
    ghost some: { 1 ≤ len },
    ghost sums: { start + len < 2 ^ 64 },
}

impl SectorRun {
    // The sector behind the last one.
    pub(crate) fn end(self) -> u64
        ensures { result ≡ self.start + self.len }
    {
        self.start + self.len
    }
}

impl From<Extent> for SectorRun {
    ghost from_gives = { λ extent run. (run.start ≡ extent.start) × (run.len ≡ extent.length) };

    fn from(extent: Extent) -> SectorRun {
        SectorRun {
            start: extent.start,
            len: extent.length,
        }
    }
}
