// Granting and giving back extents.
ghost use Rattle.std.specs.Prelude.{◌≡◌, ◌+◌, ◌-◌, ◌^◌, ◌<◌, ◌≤◌, length, Some};
ghost use Rattle.slab_log.specs.Replay.{grant, give_back, granting, returning};
ghost use Rattle.table.specs.Table.{pairs as starts};
ghost use Rattle.space.specs.Free.{sectors_of, free_in, Changes};
ghost use Rattle.space.specs.Tables.{HasPlace, Moved, Holds, Apart};

use crate::run::SectorRun;
use crate::search::Edges;
use crate::space::Space;
use slab_log::{Extent, Fault};

// The most free extents of a slab.
const MOST_EXTENTS: usize = 1024;

impl Space {
    // Grants an extent of free sectors: any part of a free extent. This and the next are one line each: a function over the
    // call would be longer than both.
    pub fn grant(&mut self, extent: Extent) -> Result<(), Fault>
        ensures { Changes self.old (granting (sectors_of self.old) (free_in self.old) extent.start extent.length) self.new result }
    {
        self.grant_run(extent.into())
    }

    // Makes the sectors of an extent in use free again.
    pub fn give_back(&mut self, extent: Extent) -> Result<(), Fault>
        ensures { Changes self.old (returning (sectors_of self.old) (free_in self.old) extent.start extent.length) self.new result }
    {
        self.return_run(extent.into())
    }

    pub(crate) fn grant_run(&mut self, run: SectorRun) -> Result<(), Fault>
        ensures { Changes self.old (granting (sectors_of self.old) (free_in self.old) run.start run.len) self.new result }
    {
        if run.end() > self.size.sectors {
            return Err(Fault::Bounds);
        }
        let holder = self.holder(run).ok_or(Fault::Taken)?;
        let inside = (holder.start < run.start) & (run.end() < holder.end());
        if inside & (self.by_start.len() >= MOST_EXTENTS) {
            return Err(Fault::Crowded);
        }
        self.cut(holder, run);
        Ok(())
    }

    // The free extent that has all sectors of a run, which lies within the slab.
    fn holder(&self, run: SectorRun) -> Option<SectorRun>
        requires { run.start + run.len ≤ sectors_of self.now }
        ensures { Holds self.now run.start run.len result }
    {
        self.sides(run.start + 1)
            .below
            .filter(|holder| run.end() <= holder.end())
    }

    // Grants a run of a free extent.
    fn cut(&mut self, holder: SectorRun, run: SectorRun)
        requires held { Holds self.old run.start run.len (Some holder) }
        requires room { holder.start < run.start → run.start + run.len < holder.start + holder.len → HasPlace self.old }
        ensures { Moved self.old self.new (grant (free_in self.old) run.start run.len) }
    {
        let end = run.end();
        let behind = holder.end() - end;
        if (holder.start == run.start) & (behind > 0) {
            let rest = SectorRun {
                start: end,
                len: behind,
            };
            self.exchange(holder, rest);
            return;
        }
        self.take_out(holder);
        self.put_end(holder.start, run.start - holder.start);
        self.put_end(end, behind);
    }

    pub(crate) fn return_run(&mut self, run: SectorRun) -> Result<(), Fault>
        ensures { Changes self.old (returning (sectors_of self.old) (free_in self.old) run.start run.len) self.new result }
    {
        let end = run.end();
        if end > self.size.sectors {
            return Err(Fault::Bounds);
        }
        let edges = self.edges(run).ok_or(Fault::Again)?;
        let alone = (edges.first == run.start) & (edges.last == end);
        if alone & (self.by_start.len() >= MOST_EXTENTS) {
            return Err(Fault::Crowded);
        }
        self.grow(run, edges);
        Ok(())
    }

    // Makes a run of used sectors free, together with the free extents beside it.
    fn grow(&mut self, run: SectorRun, edges: Edges)
        requires fits { run.start + run.len ≤ sectors_of self.old }
        requires apart { Apart (starts self.old.by_start) run.start run.len edges }
        requires room { edges.first ≡ run.start → edges.last ≡ run.start + run.len → HasPlace self.old }
        ensures { Moved self.old self.new (give_back (free_in self.old) run.start run.len) }
    {
        let start = run.start;
        let end = run.end();
        let Edges { first, last } = edges;
        let grown = SectorRun {
            start: first,
            len: last - first,
        };
        if end < last {
            self.take_end(first, start - first);
            let right = SectorRun {
                start: end,
                len: last - end,
            };
            self.exchange(right, grown);
        } else if first < start {
            let left = SectorRun {
                start: first,
                len: start - first,
            };
            self.exchange(left, grown);
        } else {
            self.put_in(grown);
        }
    }
}
