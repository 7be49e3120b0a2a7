// A script, given in blocks of any size.
ghost use Rattle.std.specs.Prelude.{◌≡◌, ℕ, List, []};
ghost use Rattle.script.specs.Stages.{seen};
ghost use Rattle.script.specs.Feeds.{kept, Fed, Taken, Last};

use crate::console::Console;
use crate::feed::Feed;
use crate::text::add_reply;
use arrayvec::ArrayVec;
use std::alloc::AllocError;
use store::LogStore;

// A clause holds for each line of which the feed keeps these bytes: what is behind the 65th is not there, so no model of a feed gives
// the line.
impl Feed {
    // No byte has been read. `OwnStore::new` reads alike, but makes another type: they have an empty vector in common, and no more.
    pub fn new() -> Feed
        ensures { result.line.items ≡ [] }
    {
        Feed {
            line: ArrayVec::new(),
        }
    }

    // Answers every line that ends in these bytes, and keeps what stands behind the last of them.
    pub fn take_bytes<S: LogStore>(
        &mut self,
        console: &mut Console<S>,
        bytes: &[u8],
        out: &mut Vec<u8>,
    ) -> Result<(), AllocError>
        ensures { (line : List ℕ) → kept line ≡ self.old.line.items → Fed (seen S.LogStore console.old.stage) line bytes.now out.old.items (seen S.LogStore console.new.stage) self.new.line.items out.new.items result }
    {
        for b in bytes {
            self.take_byte(console, *b, out)?;
        }
        Ok(())
    }

    // Answers the last line, where it lacks its line feed.
    pub fn end<S: LogStore>(
        self,
        console: &mut Console<S>,
        out: &mut Vec<u8>,
    ) -> Result<(), AllocError>
        ensures { (line : List ℕ) → kept line ≡ self.line.items → Last (seen S.LogStore console.old.stage) line out.old.items (seen S.LogStore console.new.stage) out.new.items result }
    {
        if self.line.is_empty() {
            return Ok(());
        }
        add_reply(out, console.answer(self.line.as_slice()))
    }

    fn take_byte<S: LogStore>(
        &mut self,
        console: &mut Console<S>,
        b: u8,
        out: &mut Vec<u8>,
    ) -> Result<(), AllocError>
        ensures { (line : List ℕ) → kept line ≡ self.old.line.items → Taken (seen S.LogStore console.old.stage) line b out.old.items (seen S.LogStore console.new.stage) self.new.line.items out.new.items result }
    {
        if b == b'\n' {
            add_reply(out, console.answer(self.line.as_slice()))?;
            // No `clear`, which writes blanks by a call for each line.
            self.line = ArrayVec::new();
        } else {
            // Where there is no room, the line is too long already.
            let _ = self.line.try_push(b);
        }
        Ok(())
    }
}
