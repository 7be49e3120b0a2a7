// Words in an image: added, read back, removed, and their bytes.
use crate::filling::fill_and_read;
use slab_log::Refusal;
use std::test::Fail;
use store::{ImageStore, LogStore, format as format_area};

#[test]
fn words_are_read_back(rt: HostRuntime) -> Result<(), Fail> {
    // 100 places
    let mut area = [7u8; 816];
    format_area(&mut area)?;
    let mut store = ImageStore::attach(&mut area);
    fill_and_read(&rt, &mut store, 100, 0x9e37_79b9_7f4a_7c15)
}

#[test]
fn words_stay_in_the_area(rt: HostRuntime) -> Result<(), Fail> {
    let mut area = [7u8; 40];
    format_area(&mut area)?;
    let mut store = ImageStore::attach(&mut area);
    assert_eq!(rt; store.add(0x0807_0605_0403_0201), Ok(()));
    let _ = store.detach();
    assert!(rt; area[16..24] == [1, 2, 3, 4, 5, 6, 7, 8][..]);
    assert!(rt; area[0..4] == [1, 0, 0, 0][..]);
    assert!(rt; area[24..] == [7u8; 16][..]);
    let store = ImageStore::attach(&mut area);
    assert_eq!(rt; store.word(0), Ok(0x0807_0605_0403_0201));
    assert_eq!(rt; store.word(1), Err(Refusal::NoWord));
    Ok(())
}

#[test]
fn an_emptied_image_takes_words_again(rt: HostRuntime) -> Result<(), Fail> {
    let mut area = [7u8; 24];
    format_area(&mut area)?;
    let mut store = ImageStore::attach(&mut area);
    assert_eq!(rt; store.add(5), Ok(()));
    assert_eq!(rt; store.add(6), Err(Refusal::StoreFull));
    store.empty();
    assert_eq!(rt; store.word(0), Err(Refusal::NoWord));
    assert_eq!(rt; store.add(8), Ok(()));
    assert_eq!(rt; store.word(0), Ok(8));
    Ok(())
}
