// What is counted of a space and of a log.
ghost use Rattle.std.specs.Prelude.{◌≡◌, ◌+◌, ◌^◌, ◌<◌};
ghost use Rattle.slab_log.specs.Replay.{replay};
ghost use Rattle.space.specs.Free.{sectors_of, free_in};
ghost use Rattle.disk_slab.specs.Answers.{Sums};
ghost use Rattle.disk_slab.specs.Audits.{Tallies, Tallied};

use crate::figures::{Figures, Tally};
use slab_log::Entry;
use space::Space;
use store::{LogStore, Words};

// The figures of a slab with this space and so many words in its log.
pub(crate) fn figures_of(space: &Space, words: usize) -> Figures
    ensures { Sums (sectors_of space.now) (free_in space.now) words result }
{
    Figures {
        free: space.free_sectors(),
        extents: space.free_extents(),
        longest: space.longest(),
        words,
    }
}

// How many words of each kind a store's log has.
pub(crate) fn tally_of<S: LogStore>(store: &S) -> Tally
    ensures { Tallies (S.LogStore.words store.now) result }
{
    let mut tally = Tally::default();
    for word in Words::of(store) {
        count_word(&mut tally, word);
    }
    tally
}

// One word more.
fn count_word(tally: &mut Tally, word: u64)
    requires allocating { tally.old.allocating + 1 < 2 ^ 64 }
    requires freeing { tally.old.freeing + 1 < 2 ^ 64 }
    requires debug { tally.old.debug + 1 < 2 ^ 64 }
    ensures { Tallied tally.old word tally.new }
{
    if let Ok(entry) = Entry::try_from(word) {
        match entry {
            Entry::Allocate(_) => tally.allocating += 1,
            Entry::Free(_) => tally.freeing += 1,
            Entry::Debug(_) => tally.debug += 1,
        }
    }
}
