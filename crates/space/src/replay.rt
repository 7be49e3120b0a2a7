// A space from a log.
ghost use Rattle.std.specs.Prelude.{◌≡◌};
ghost use Rattle.slab_log.specs.Sectors.{whole};
ghost use Rattle.slab_log.specs.Words.{read};
ghost use Rattle.slab_log.specs.Replay.{apply, take_word};
ghost use Rattle.space.specs.Free.{sectors_of, free_in, Changes, Replays};

use crate::run::SectorRun;
use crate::space::Space;
use slab_log::{Entry, Fault, Size, Stop};
use store::{LogStore, Words};
use table::{LengthKey, LengthTable, StartTable};

impl Space {
    // All sectors of a slab of the size, free.
    pub fn new(size: Size) -> Space
        ensures sectors { free_in result ≡ whole size.sectors }
        ensures size { result.size ≡ size }
    {
        let len = size.sectors;
        let mut by_start = StartTable::new();
        let mut by_length = LengthTable::new();
        let _ = by_start.insert(0, len);
        let _ = by_length.insert(LengthKey { len, start: 0 }, ());
        Space {
            size,
            by_start,
            by_length,
            free: len,
        }
    }

    // What one entry of a log does. Each arm names its run in place: through one `From<Span>` two edits that turn an arm would be refused for
    // what the conversion says alone.
    pub fn apply(&mut self, entry: Entry) -> Result<(), Fault>
        ensures { Changes self.old (apply (sectors_of self.old) (free_in self.old) entry) self.new result }
    {
        match entry {
            Entry::Allocate(span) => self.grant_run(SectorRun {
                start: span.offset,
                len: span.run,
            }),
            Entry::Free(span) => self.return_run(SectorRun {
                start: span.offset,
                len: span.run,
            }),
            Entry::Debug(_) => Ok(()),
        }
    }

    // What one word of a log does.
    pub fn take_word(&mut self, word: u64) -> Result<(), Fault>
        ensures { Changes self.old (take_word (sectors_of self.old) (free_in self.old) (read word)) self.new result }
    {
        let entry = Entry::try_from(word)?;
        self.apply(entry)
    }

    // The free sectors that a store's log leaves at a size, or its first fault.
    pub fn replay<S: LogStore>(store: &S, size: Size) -> Result<Space, Stop>
        ensures { Replays size (S.words store.now) result }
    {
        let mut space = Space::new(size);
        for (place, word) in Words::of(store).enumerate() {
            space
                .take_word(word)
                .map_err(|fault| Stop { fault, place })?;
        }
        Ok(space)
    }
}
