// What the tables are held to: for each of 2,048 starts the value that the table has for it.
ghost use Rattle.std.specs.Prelude.{◌<◌};

use table::{Entry, LengthKey};

pub const STARTS: usize = 2048;

// A start from a pseudo-random number.
pub(crate) fn pick(random: u64) -> usize
    ensures { result < 2048 }
{
    (random >> 33) as usize % STARTS
}

// The span that stands for a start: 64 starts to a length, so that both orders are one.
pub(crate) fn span_of(start: usize) -> LengthKey {
    LengthKey {
        len: start as u64 / 64,
        start: start as u64 % 64,
    }
}

// How many starts are there.
pub(crate) fn count<V>(model: &[Option<V>]) -> usize {
    model.iter().flatten().count()
}

// The first start, not below a given one, that is there.
pub(crate) fn first_from<V>(model: &[Option<V>], start: usize) -> Option<usize> {
    model
        .iter()
        .enumerate()
        .position(|(i, value)| i >= start && value.is_some())
}

// The last start, below a given one, that is there.
pub(crate) fn last_before<V>(model: &[Option<V>], start: usize) -> Option<usize> {
    model
        .iter()
        .enumerate()
        .filter(|(i, value)| *i < start && value.is_some())
        .last()
        .map(|(i, _)| i)
}

// The key of an answer.
pub(crate) fn key_of<K: Drop, V: Drop>(found: Option<Entry<K, V>>) -> Option<K> {
    found.map(|entry| entry.key)
}
