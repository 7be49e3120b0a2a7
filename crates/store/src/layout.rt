// The words of an image in an area of bytes.
ghost use Rattle.std.specs.Prelude.{◌≡◌, ◌+◌, ◌≤◌, [], length};
ghost use Rattle.store.specs.Answers.{Reads, Adds};
ghost use Rattle.store.specs.Bytes.{le64, SameOutside};
ghost use Rattle.store.specs.Image.{words_of, capacity_of, count_field};
ghost use Rattle.store.specs.Changes.{AddChanges, EmptyChanges, NotYetAdded};

use crate::bytes::{get, put};
use crate::header_rule::{COUNT_AT, WORD_BYTES, check};
use slab_log::Refusal;

// Two figures by one line each: a function over the field would be longer than both.
pub(crate) fn count_of(area: &[u8]) -> usize
    ensures { result ≡ length (words_of area.now) }
{
    check(area).map_or(0, |header| header.count as usize)
}

pub(crate) fn capacity_of(area: &[u8]) -> usize
    ensures { result ≡ capacity_of area.now }
{
    check(area).map_or(0, |header| header.capacity as usize)
}

pub(crate) fn word_of(area: &[u8], i: usize) -> Result<u64, Refusal>
    ensures { Reads (words_of area.now) i result }
{
    let header = check(area).map_err(|_| Refusal::NoWord)?;
    if i >= header.count as usize {
        return Err(Refusal::NoWord);
    }
    let word = get(area, header.first as usize + WORD_BYTES * i);
    Ok(u64::from_le_bytes(word))
}

// The first step of an addition: the word's bytes. The image still has the words that it had. This and the next are one line each, of
// other widths and with other clauses: the word is not seen yet, and the count makes it seen.
fn write_word(area: &mut [u8], place: usize, w: u64)
    requires { place + 8 ≤ length area.old }
    ensures word { le64 area.new place ≡ w }
    ensures others { SameOutside area.old area.new place 8 }
    ensures unseen { NotYetAdded area.old area.new place }
{
    put(area, place, w.to_le_bytes());
}

// The second step of an addition: the count, which makes the new word one of the image.
fn write_count(area: &mut [u8], n: u32)
    requires { 4 ≤ length area.old }
    ensures count { count_field area.new ≡ n }
    ensures others { SameOutside area.old area.new 0 4 }
{
    put(area, COUNT_AT, n.to_le_bytes());
}

pub(crate) fn add_to(area: &mut [u8], w: u64) -> Result<(), Refusal>
    ensures kept { capacity_of area.new ≡ capacity_of area.old }
    ensures adds { Adds (capacity_of area.old) (words_of area.old) (words_of area.new) w result }
    ensures changes { AddChanges area.old area.new result }
{
    let header = check(area).map_err(|_| Refusal::StoreFull)?;
    if header.count == header.capacity {
        return Err(Refusal::StoreFull);
    }
    let place = header.first as usize + WORD_BYTES * header.count as usize;
    write_word(area, place, w);
    write_count(area, header.count + 1);
    Ok(())
}

pub(crate) fn empty_in(area: &mut [u8])
    ensures kept { capacity_of area.new ≡ capacity_of area.old }
    ensures emptied { words_of area.new ≡ [] }
    ensures changes { EmptyChanges area.old area.new }
{
    if check(area).is_ok() {
        write_count(area, 0);
    }
}
