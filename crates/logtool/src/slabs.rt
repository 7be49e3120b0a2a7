// What the tool does with a log as the log of a slab: its audit, and the condensed log in its place.
ghost use Rattle.disk_slab.specs.View.{loaded};
ghost use Rattle.disk_slab.specs.Answers.{Condenses, NeverFull};
ghost use Rattle.disk_slab.specs.Audits.{Audits};

use disk_slab::{Audit, Cold};
use slab_log::{Refusal, Size, Stop};
use store::LogStore;

// What the log of a store holds at a size, or its first fault.
pub(crate) fn audit_log<S: LogStore + Drop>(store: S, size: Size) -> Result<Audit, Stop>
    ensures { Audits size.sectors (S.LogStore.words store) result }
{
    let slab = Cold::open(store, size);
    let answer = slab.audit();
    drop(slab.close());
    answer
}

// Replaces the log of a store with the condensed log at a size, and answers how many words that has.
// A refusal leaves the words as they were.
pub(crate) fn condense_log<S: LogStore>(store: S, size: Size) -> (S, Result<usize, Refusal>)
    ensures answer { Condenses (loaded size.sectors (S.LogStore.capacity store) (S.LogStore.words store)) (S.LogStore.words result.0) result.1 }
    ensures room { NeverFull result.1 }
{
    let mut slab = Cold::open(store, size).load();
    let answer = slab.condense();
    (slab.close(), answer)
}
