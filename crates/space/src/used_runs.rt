// The runs of sectors in use, one after the other.
ghost use Rattle.std.specs.Prelude.{◌≡◌, ◌<◌, true};
ghost use Rattle.slab_log.specs.Sectors.{used, begins};
ghost use Rattle.space.specs.Free.{sectors_of, free_in};
ghost use Rattle.space.specs.Tables.{Passes};

use crate::space::Space;
use slab_log::Extent;

// The runs that are left.
#[derive(Drop)]
pub(crate) struct UsedRuns<'a> {
    space: &'a Space,
    // Where the next one begins; the size, if there is none.
    at: u64,
    ghost begins: { at < sectors_of space.now → begins (used (sectors_of space.now) (free_in space.now)) at ≡ true },
}

impl Space {
    // All runs of sectors in use, each as long as it can be, from the lowest on.
    pub(crate) fn used_runs(&self) -> UsedRuns<'_>
        ensures space { result.space.now ≡ self.now }
        ensures first { Passes (sectors_of self.now) (free_in self.now) 0 result.at }
    {
        let first = self.sides(0).from.filter(|free| free.start == 0);
        UsedRuns {
            space: self,
            at: first.map_or(0, |free| free.end()),
        }
    }
}

impl<'a> Iterator for UsedRuns<'a> {
    ghost use Rattle.space.specs.UsedRuns.{GivesNext, sectors_left};

    type Item = Extent;

    ghost next_gives = { GivesNext };

    ghost remaining = { sectors_left };

    fn next(&mut self) -> Option<Extent> {
        let size = self.space.size().sectors;
        let start = self.at;
        if start >= size {
            return None;
        }
        let behind = self.space.sides(start).from;
        let end = behind.map_or(size, |free| free.start);
        self.at = behind.map_or(size, |free| free.end());
        Some(Extent {
            start,
            length: end - start,
        })
    }
}
