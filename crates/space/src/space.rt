// The free sectors of a slab, as its free extents in two tables.
ghost use Rattle.std.specs.Prelude.{◌≡◌, length};
ghost use Rattle.table.specs.Table.{pairs as starts};
ghost use Rattle.table.specs.Table.{pairs as lengths};
ghost use Rattle.space.specs.Extents.{Spaced, Twins, total};

use slab_log::Size;
use table::{LengthTable, StartTable};

// Both tables hold the same extents: the longest runs of free sectors.
#[derive(Drop)]
pub struct Space {
    pub(crate) size: Size,
    pub(crate) by_start: StartTable,
    pub(crate) by_length: LengthTable,
    // How many sectors are free.
    pub(crate) free: u64,
    ghost spaced: { ∥ Spaced 0 size.sectors (starts by_start) ∥₁ },
    ghost twins: { Twins (starts by_start) (lengths by_length) },
    ghost level: { length (lengths by_length) ≡ length (starts by_start) },
    ghost counted: { free ≡ total (starts by_start) },
}
