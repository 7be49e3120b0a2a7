// The header of an image, and the rule that an area of bytes has to meet to be one.
ghost use Rattle.std.specs.Prelude.{◌≡◌, ◌≤◌, length};
ghost use Rattle.store.specs.Bytes.{SameOutside};
ghost use Rattle.store.specs.Image.{fits_test, header_bytes};
ghost use Rattle.store.specs.Changes.{Checks, IsHeader};

use crate::bytes::{get, put};
use slab_log::Refusal;

// How many bytes the header takes.
pub const HEADER_BYTES: usize = 16;

// How many bytes a word takes.
pub(crate) const WORD_BYTES: usize = 8;

// Where the header's four numbers stand.
pub(crate) const COUNT_AT: usize = 0;

const CAPACITY_AT: usize = 4;

const FIRST_AT: usize = 8;

const END_AT: usize = 12;

// The four numbers that an image begins with.
#[derive(Clone, Copy, PartialEq, Eq, Debug)]
pub struct Header {
    // How many words the image has.
    pub count: u32,
    // How many places it has for words.
    pub capacity: u32,
    // The offset of the first word.
    pub first: u32,
    // The offset just behind the last place.
    pub end: u32,
}

fn read_header(area: &[u8]) -> Header
    requires { header_bytes ≤ length area.now }
    ensures { IsHeader area.now result }
{
    Header {
        count: u32::from_le_bytes(get(area, COUNT_AT)),
        capacity: u32::from_le_bytes(get(area, CAPACITY_AT)),
        first: u32::from_le_bytes(get(area, FIRST_AT)),
        end: u32::from_le_bytes(get(area, END_AT)),
    }
}

pub(crate) fn write_header(area: &mut [u8], header: Header)
    requires { header_bytes ≤ length area.old }
    ensures written { IsHeader area.new header }
    ensures others { SameOutside area.old area.new 0 header_bytes }
{
    put(area, COUNT_AT, header.count.to_le_bytes());
    put(area, CAPACITY_AT, header.capacity.to_le_bytes());
    put(area, FIRST_AT, header.first.to_le_bytes());
    put(area, END_AT, header.end.to_le_bytes());
}

// Whether the header's numbers fit one another and an area of so many bytes.
fn fits(header: Header, len: usize) -> bool
    ensures { result ≡ fits_test header.count header.capacity header.first header.end len }
{
    let first = header.first as usize;
    let end = header.end as usize;
    (HEADER_BYTES <= first)
        & ((end == first + WORD_BYTES * header.capacity as usize)
            & ((end <= len) & (header.count <= header.capacity)))
}

// The header of the area, where the area meets the header rule.
pub fn check(area: &[u8]) -> Result<Header, Refusal>
    ensures { Checks area.now result }
{
    if area.len() < HEADER_BYTES {
        return Err(Refusal::BadHeader);
    }
    let header = read_header(area);
    if fits(header, area.len()) {
        Ok(header)
    } else {
        Err(Refusal::BadHeader)
    }
}
