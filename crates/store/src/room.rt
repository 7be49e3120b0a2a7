// The places that a store has left for more words.
ghost use Rattle.store.specs.Answers.{HasRoom};

use crate::log_store::LogStore;
use slab_log::Refusal;

// Whether so many more words have places; the refusal says how many places are left.
pub fn room_for<S: LogStore>(store: &S, needed: usize) -> Result<(), Refusal>
    ensures { HasRoom (S.capacity store.now) (S.words store.now) needed result }
{
    let places = store.capacity() - store.count();
    if places < needed {
        return Err(Refusal::LogFull { places, needed });
    }
    Ok(())
}
