// The header of an image with no words, written into an area of bytes.
ghost use Rattle.std.specs.Prelude.{◌≡◌};
ghost use Rattle.store.specs.Image.{places_for};
ghost use Rattle.store.specs.Changes.{Formats};

use crate::header_rule::{HEADER_BYTES, Header, WORD_BYTES, write_header};
use slab_log::Refusal;

// The most places that an area is given.
const MOST_PLACES: usize = 1048576;

// The first word lies right behind the header.
const FIRST_OFFSET: u32 = HEADER_BYTES as u32;

// The places that an area of so many bytes is given.
fn places_for(len: usize) -> u32
    ensures { result ≡ places_for len }
{
    let places = len.saturating_sub(HEADER_BYTES) / WORD_BYTES;
    places.min(MOST_PLACES) as u32
}

// Makes the area an image with no words: writes its header, and nothing behind it.
pub fn format(area: &mut [u8]) -> Result<(), Refusal>
    ensures { Formats area.old area.new result }
{
    if area.len() < HEADER_BYTES {
        return Err(Refusal::BadHeader);
    }
    let capacity = places_for(area.len());
    let header = Header {
        count: 0,
        capacity,
        first: FIRST_OFFSET,
        end: FIRST_OFFSET + WORD_BYTES as u32 * capacity,
    };
    write_header(area, header);
    Ok(())
}
