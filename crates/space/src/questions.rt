// What can be asked of a space.
ghost use Rattle.std.specs.Prelude.{◌≡◌, ◌+◌};
ghost use Rattle.slab_log.specs.Sectors.{meets, count, runs};
ghost use Rattle.space.specs.Free.{sectors_of, free_in, Fits, Follows, Longest, Standing};

use crate::space::Space;
use slab_log::{Extent, Size};
use table::LengthKey;

impl Space {
    // The size of the slab.
    pub fn size(&self) -> Size
        ensures { result ≡ self.now.size }
    {
        self.size
    }

    // How many sectors are free.
    pub fn free_sectors(&self) -> u64
        ensures { result ≡ count (free_in self.now) (sectors_of self.now) }
    {
        self.free
    }

    // How many free extents there are.
    pub fn free_extents(&self) -> usize
        ensures { result ≡ runs (free_in self.now) (sectors_of self.now) }
    {
        self.by_start.len()
    }

    // The length of the longest free extent, 0 if there is none.
    pub fn longest(&self) -> u64
        ensures { Longest (free_in self.now) result }
    {
        self.by_length.last().map_or(0, |longest| longest.key.len)
    }

    // The shortest free extent with at least so many sectors, and of equally short ones the lowest.
    pub fn best_fit(&self, want: u64) -> Option<Extent>
        ensures { Fits (free_in self.now) want result }
    {
        let fit = self.by_length.lowest_from(LengthKey {
            len: want,
            start: 0,
        })?;
        Some(Extent {
            start: fit.key.start,
            length: fit.key.len,
        })
    }

    // The lowest free extent that begins at or after a sector.
    pub fn next(&self, sector: u64) -> Option<Extent>
        ensures { Follows (free_in self.now) sector result }
    {
        let next = self.sides(sector).from?;
        Some(Extent {
            start: next.start,
            length: next.len,
        })
    }

    // Whether a sector of the extent is free.
    pub fn has_free(&self, extent: Extent) -> bool
        ensures { result ≡ meets (free_in self.now) extent.start extent.length }
    {
        self.edges(extent.into()).is_none()
    }

    // How many free extents there would be once the extent is given back; nothing where it cannot be, since it ends beyond
    // the slab or has a free sector.
    pub fn extents_after(&self, extent: Extent) -> Option<usize>
        ensures { Standing (sectors_of self.now) (free_in self.now) extent result }
    {
        let start = extent.start;
        let end = start + extent.length;
        if end > self.size.sectors {
            return None;
        }
        let edges = self.edges(extent.into())?;
        // Each neighbour that is free is one extent fewer.
        let left = (start - edges.first).min(1) as usize;
        let right = (edges.last - end).min(1) as usize;
        Some(self.by_start.len() + 1 - left - right)
    }
}
