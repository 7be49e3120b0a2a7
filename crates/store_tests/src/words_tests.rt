// The words of a store, one after the other.
use std::process::Abort;
use std::test::Fail;
use store::{ImageStore, LogStore, OwnStore, Words, format as format_area};

// Adds three words, and asks for the words of the store.
fn gives_three_words<S: LogStore>(rt: &impl Abort, store: &mut S) -> Result<(), Fail> {
    for w in [5, 8, 13] {
        store.add(w)?;
    }
    let mut words = Words::of(store);
    assert_eq!(rt; words.next(), Some(5));
    assert_eq!(rt; words.next(), Some(8));
    assert_eq!(rt; words.next(), Some(13));
    assert_eq!(rt; words.next(), None);
    assert_eq!(rt; words.next(), None);
    Ok(())
}

#[test]
fn an_own_store_gives_its_words_in_order(rt: HostRuntime) -> Result<(), Fail> {
    let mut store = OwnStore::new();
    assert_eq!(rt; Words::of(&store).next(), None);
    gives_three_words(&rt, &mut store)
}

#[test]
fn an_image_store_gives_its_words_in_order(rt: HostRuntime) -> Result<(), Fail> {
    let mut area = [7u8; 40];
    format_area(&mut area)?;
    gives_three_words(&rt, &mut ImageStore::attach(&mut area))
}
