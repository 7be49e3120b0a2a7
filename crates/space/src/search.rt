// The free extents nearest to a sector, and what they say of a run.
ghost use Rattle.std.specs.Prelude.{◌≡◌, true, IfSome};
ghost use Rattle.table.specs.Table.{pairs as starts};
ghost use Rattle.space.specs.Extents.{in_list};
ghost use Rattle.space.specs.Tables.{RunOf, LastBefore, FirstFrom, Surrounds};

use crate::run::SectorRun;
use crate::space::Space;
use table::{Beside, Entry};

// The bounds of the free extent that a run of used sectors would become part of. There always are such bounds, so that they are numbers and
// no options: with no free extent beside the run they are its own.
#[derive(Clone, Copy)]
pub(crate) struct Edges {
    // Where the free extent begins that ends at the run; the run's start, if there is none.
    pub(crate) first: u64,
    // Where the free extent ends that begins behind the run; the run's end, if there is none.
    pub(crate) last: u64,
}

impl Space {
    // The last free extent that begins before a sector, and the first that does not, by one search.
    pub(crate) fn sides(&self, sector: u64) -> Beside<Option<SectorRun>>
        ensures below { LastBefore (starts self.now.by_start) sector result.below }
        ensures from { FirstFrom (starts self.now.by_start) sector result.from }
    {
        let found = self.by_start.beside(sector);
        Beside {
            below: self.run_of(found.below),
            from: self.run_of(found.from),
        }
    }

    // The extent of a pair of the table of starts, where there is one.
    fn run_of(&self, pair: Option<Entry<u64, u64>>) -> Option<SectorRun>
        requires { IfSome pair (λ p. in_list p.key p.value (starts self.now.by_start) ≡ true) }
        ensures { RunOf pair result }
    {
        let pair = pair?;
        Some(SectorRun {
            start: pair.key,
            len: pair.value,
        })
    }

    // The edges of the free extents beside a run; nothing where a sector of the run is free.
    pub(crate) fn edges(&self, run: SectorRun) -> Option<Edges>
        ensures { Surrounds (starts self.now.by_start) run.start run.len result }
    {
        let Beside { below, from } = self.sides(run.start);
        let start = run.start;
        let end = run.end();
        let met = below.is_some_and(|free| start < free.end())
            | from.is_some_and(|free| free.start < end);
        if met {
            return None;
        }
        Some(Edges {
            first: below
                .filter(|free| free.end() == start)
                .map_or(start, |free| free.start),
            last: from
                .filter(|free| free.start == end)
                .map_or(end, |free| free.end()),
        })
    }
}
