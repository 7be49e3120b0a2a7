// Sizes and extents from plain numbers. No `TryFrom`: an extent is made of two numbers, which a pair would leave without names, and a
// size is made as an extent is; nothing converts a number to either without knowing which it is.
ghost use Rattle.slab_log.specs.Make.{MakesSize, MakesExtent};

use crate::extent::Extent;
use crate::refusal::Refusal;
use crate::size::Size;

// The most sectors that a slab may have.
const MOST_SECTORS: u64 = 67_108_864;

impl Size {
    // A size of so many sectors; refused with 1 where no slab may have it.
    pub fn new(sectors: u64) -> Result<Size, Refusal>
        ensures { MakesSize sectors result }
    {
        if sectors == 0 {
            return Err(Refusal::BadSize);
        }
        if sectors > MOST_SECTORS {
            return Err(Refusal::BadSize);
        }
        Ok(Size { sectors })
    }
}

impl Extent {
    // The extent of so many sectors from `start` on; refused with 2 where it is empty or ends past the limit.
    pub fn new(start: u64, length: u64) -> Result<Extent, Refusal>
        ensures { MakesExtent start length result }
    {
        if length == 0 {
            return Err(Refusal::BadExtent);
        }
        if length > MOST_SECTORS {
            return Err(Refusal::BadExtent);
        }
        if start > MOST_SECTORS - length {
            return Err(Refusal::BadExtent);
        }
        Ok(Extent { start, length })
    }
}
