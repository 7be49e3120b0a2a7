// The header that formatting writes, and headers that break the rule.
use slab_log::Refusal;
use std::process::Abort;
use std::test::Fail;
use store::{Header, ImageStore, LogStore, check as check_header, format as format_area};

const BYTES: usize = 40;

// An area of 40 bytes that begins with these numbers; every other byte is 9.
fn area_of(header: Header) -> [u8; BYTES] {
    let mut area = [9; BYTES];
    area[0..4].copy_from_slice(&header.count.to_le_bytes());
    area[4..8].copy_from_slice(&header.capacity.to_le_bytes());
    area[8..12].copy_from_slice(&header.first.to_le_bytes());
    area[12..16].copy_from_slice(&header.end.to_le_bytes());
    area
}

// No store over this area has a place, and none changes it.
fn refuses(rt: &impl Abort, header: Header) {
    let before = area_of(header);
    let mut area = before;
    assert_eq!(rt; check_header(&area), Err(Refusal::BadHeader));
    let mut store = ImageStore::attach(&mut area);
    assert_eq!(rt; store.capacity(), 0);
    assert_eq!(rt; store.count(), 0);
    assert_eq!(rt; store.word(0), Err(Refusal::NoWord));
    assert_eq!(rt; store.add(77), Err(Refusal::StoreFull));
    store.empty();
    let _ = store.detach();
    assert!(rt; area[..] == before[..]);
}

#[test]
fn a_sound_header_is_read(rt: HostRuntime) -> Result<(), Fail> {
    let header = Header {
        count: 2,
        capacity: 2,
        first: 24,
        end: 40,
    };
    assert_eq!(rt; check_header(&area_of(header)), Ok(header));
    Ok(())
}

#[test]
fn a_first_offset_within_the_header_is_refused(rt: HostRuntime) {
    refuses(
        &rt,
        Header {
            count: 1,
            capacity: 3,
            first: 15,
            end: 39,
        },
    );
}

#[test]
fn an_end_that_is_not_behind_the_places_is_refused(rt: HostRuntime) {
    refuses(
        &rt,
        Header {
            count: 1,
            capacity: 2,
            first: 16,
            end: 40,
        },
    );
}

#[test]
fn an_end_beyond_the_area_is_refused(rt: HostRuntime) {
    refuses(
        &rt,
        Header {
            count: 1,
            capacity: 3,
            first: 17,
            end: 41,
        },
    );
}

#[test]
fn a_count_beyond_the_capacity_is_refused(rt: HostRuntime) {
    refuses(
        &rt,
        Header {
            count: 4,
            capacity: 3,
            first: 16,
            end: 40,
        },
    );
}

#[test]
fn an_area_shorter_than_a_header_is_refused(rt: HostRuntime) {
    let mut area = [0u8; 15];
    assert_eq!(rt; check_header(&area), Err(Refusal::BadHeader));
    let mut store = ImageStore::attach(&mut area);
    assert_eq!(rt; store.capacity(), 0);
    assert_eq!(rt; store.add(77), Err(Refusal::StoreFull));
    let _ = store.detach();
    assert!(rt; area[..] == [0u8; 15][..]);
}

// Formats an area of bytes that are all 7, and looks at its header and at the bytes behind it.
fn formats(rt: &impl Abort, area: &mut [u8], capacity: u32) -> Result<(), Fail> {
    assert_eq!(rt; format_area(area), Ok(()));
    let header = check_header(area)?;
    assert_eq!(rt; header.count, 0);
    assert_eq!(rt; header.capacity, capacity);
    assert_eq!(rt; header.first, 16);
    assert!(rt; header.end as usize == 16 + 8 * capacity as usize);
    for (i, byte) in area.iter().enumerate() {
        assert!(rt; i < 16 || *byte == 7);
    }
    Ok(())
}

#[test]
fn formatting_gives_the_places_that_fit(rt: HostRuntime) -> Result<(), Fail> {
    formats(&rt, &mut [7; 16], 0)?;
    formats(&rt, &mut [7; 23], 0)?;
    formats(&rt, &mut [7; 24], 1)?;
    formats(&rt, &mut [7; 39], 2)?;
    formats(&rt, &mut [7; 40], 3)
}

#[test]
fn formatting_refuses_a_short_area(rt: HostRuntime) {
    let mut area = [7u8; 15];
    assert_eq!(rt; format_area(&mut area[0..0]), Err(Refusal::BadHeader));
    assert_eq!(rt; format_area(&mut area), Err(Refusal::BadHeader));
    assert!(rt; area[..] == [7u8; 15][..]);
}

#[test]
fn formatting_caps_the_places(rt: HostRuntime) -> Result<(), Fail> {
    let mut area = vec![in rt.alloc(); 7u8; 8388632]?;
    assert_eq!(rt; format_area(&mut area), Ok(()));
    let header = check_header(&area)?;
    assert_eq!(rt; header.capacity, 1048576);
    assert_eq!(rt; header.end, 8388624);
    Ok(())
}
