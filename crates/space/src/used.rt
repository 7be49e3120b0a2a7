// The runs of sectors in use.
ghost use Rattle.std.specs.Prelude.{◌≡◌, ◌-◌, ◌<◌, ◌≤◌, false};
ghost use Rattle.slab_log.specs.Sectors.{used};
ghost use Rattle.space.specs.Free.{sectors_of, free_in, Follows};
ghost use Rattle.space.specs.Tables.{FreeTo, UsedTo};

use crate::space::Space;
use slab_log::Extent;
use table::Beside;

impl Space {
    // The lowest longest run of used sectors that begins at or after a sector.
    pub fn next_used(&self, sector: u64) -> Option<Extent>
        ensures { Follows (used (sectors_of self.now) (free_in self.now)) sector result }
    {
        let size = self.size.sectors;
        let start = self.free_end(sector).filter(|start| *start < size)?;
        let length = self.used_end(start) - start;
        Some(Extent { start, length })
    }

    // Where free sectors end, behind which that run begins; the first sector of the slab where the run begins with it. Nothing where no free
    // extent lies before or behind, so that no run begins there. Where it is the size, the slab ends there.
    fn free_end(&self, sector: u64) -> Option<u64>
        ensures { FreeTo (used (sectors_of self.now) (free_in self.now)) (sectors_of self.now) sector result }
    {
        let Beside { below, from } = self.sides(sector);
        if sector == 0 {
            let first = from.filter(|free| free.start == 0);
            return Some(first.map_or(0, |free| free.end()));
        }
        below
            .filter(|free| sector <= free.end())
            .or(from)
            .map(|free| free.end())
    }

    // Where the used sectors end that go on from a used one.
    fn used_end(&self, start: u64) -> u64
        requires within { start < sectors_of self.now }
        requires off { free_in self.now start ≡ false }
        ensures { UsedTo (sectors_of self.now) (free_in self.now) start result }
    {
        self.sides(start)
            .from
            .map_or(self.size.sectors, |free| free.start)
    }
}
