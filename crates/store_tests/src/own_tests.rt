// An own store up to its last place, and past it.
use crate::filling::fill_and_read;
use slab_log::Refusal;
use std::test::Fail;
use store::{LogStore, OwnStore, PLACES};

#[test]
fn a_new_store_is_empty(rt: HostRuntime) {
    let store = OwnStore::new();
    assert_eq!(rt; store.count(), 0);
    assert_eq!(rt; store.capacity(), 4096);
    assert_eq!(rt; store.word(0), Err(Refusal::NoWord));
}

#[test]
fn a_full_store_takes_no_word(rt: HostRuntime) -> Result<(), Fail> {
    fill_and_read(&rt, &mut OwnStore::new(), PLACES, 3)
}

#[test]
fn an_emptied_store_takes_words_again(rt: HostRuntime) -> Result<(), Fail> {
    let mut store = OwnStore::new();
    store.add(5)?;
    store.add(6)?;
    store.empty();
    assert_eq!(rt; store.count(), 0);
    assert_eq!(rt; store.word(0), Err(Refusal::NoWord));
    store.add(8)?;
    assert_eq!(rt; store.word(0), Ok(8));
    assert_eq!(rt; store.word(1), Err(Refusal::NoWord));
    Ok(())
}
