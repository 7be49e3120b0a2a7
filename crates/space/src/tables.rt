// One free extent put into both tables of a space, taken out of both, or exchanged for another. The key of a length is made of a run's
// fields in place: through a conversion each proof would read it by that one's clause.
ghost use Rattle.std.specs.Prelude.{◌≡◌, ◌+◌, ◌<◌, ◌≤◌, min, true, length};
ghost use Rattle.slab_log.specs.Replay.{grant, give_back};
ghost use Rattle.table.specs.Table.{pairs as starts};
ghost use Rattle.space.specs.Extents.{in_list};
ghost use Rattle.space.specs.Free.{free_in, sectors_of};
ghost use Rattle.space.specs.Tables.{HasPlace, Clear, Moved};

use crate::run::SectorRun;
use crate::space::Space;
use table::LengthKey;

impl Space {
    // Takes a free extent out.
    pub(crate) fn take_out(&mut self, run: SectorRun)
        requires { in_list run.start run.len (starts self.old.by_start) ≡ true }
        ensures moved { Moved self.old self.new (grant (free_in self.old) run.start run.len) }
        ensures fewer { length (starts self.new.by_start) + 1 ≡ length (starts self.old.by_start) }
    {
        let SectorRun { start, len } = run;
        let _ = self.by_start.remove(start);
        let _ = self.by_length.remove(LengthKey { len, start });
        self.free -= len;
    }

    // Puts an extent in that has no free sector in it or beside it.
    pub(crate) fn put_in(&mut self, run: SectorRun)
        requires within { run.start + run.len ≤ sectors_of self.old }
        requires clear { Clear (free_in self.old) run.start run.len }
        requires few { HasPlace self.old }
        ensures moved { Moved self.old self.new (give_back (free_in self.old) run.start run.len) }
        ensures more { length (starts self.new.by_start) ≡ length (starts self.old.by_start) + 1 }
    {
        let SectorRun { start, len } = run;
        let _ = self.by_start.insert(start, len);
        let _ = self.by_length.insert(LengthKey { len, start }, ());
        self.free += len;
    }

    // Puts an extent in place of a free one. With that one out, it has no free sector in it or beside it.
    pub(crate) fn exchange(&mut self, old: SectorRun, new: SectorRun)
        requires held { in_list old.start old.len (starts self.old.by_start) ≡ true }
        requires within { new.start + new.len ≤ sectors_of self.old }
        requires clear { Clear (grant (free_in self.old) old.start old.len) new.start new.len }
        ensures moved { Moved self.old self.new (give_back (grant (free_in self.old) old.start old.len) new.start new.len) }
        ensures level { length (starts self.new.by_start) ≡ length (starts self.old.by_start) }
    {
        if self.by_start.replace(old.start, new.start, new.len) {
            let _ = self.by_length.remove(LengthKey {
                len: old.len,
                start: old.start,
            });
            let _ = self.by_length.insert(
                LengthKey {
                    len: new.len,
                    start: new.start,
                },
                (),
            );
            self.free = self.free - old.len + new.len;
        } else {
            self.take_out(old);
            self.put_in(new);
        }
    }

    // Puts an extent in, unless it is empty. As an option of a run it would be said in two cases, where the sectors of an empty one are said
    // as those of any. This and `take_end` owe opposite facts: one function over a closure would need both.
    pub(crate) fn put_end(&mut self, start: u64, len: u64)
        requires within { start + len ≤ sectors_of self.old }
        requires clear { 1 ≤ len → Clear (free_in self.old) start len }
        requires few { 1 ≤ len → HasPlace self.old }
        ensures moved { Moved self.old self.new (give_back (free_in self.old) start len) }
        ensures more { length (starts self.new.by_start) ≡ length (starts self.old.by_start) + min len 1 }
    {
        if len > 0 {
            self.put_in(SectorRun { start, len });
        }
    }

    // Takes a free extent out, unless it is empty.
    pub(crate) fn take_end(&mut self, start: u64, len: u64)
        requires { 1 ≤ len → in_list start len (starts self.old.by_start) ≡ true }
        ensures moved { Moved self.old self.new (grant (free_in self.old) start len) }
        ensures fewer { length (starts self.new.by_start) + min len 1 ≡ length (starts self.old.by_start) }
    {
        if len > 0 {
            self.take_out(SectorRun { start, len });
        }
    }
}
