// A store filled up to its last place, and past it.
use slab_log::Refusal;
use std::process::Abort;
use std::test::Fail;
use store::LogStore;

// Of a store with no words and so many places, fills each place with its index times a factor, and reads each word back.
pub(crate) fn fill_and_read<S: LogStore>(
    rt: &impl Abort,
    store: &mut S,
    places: usize,
    factor: u64,
) -> Result<(), Fail> {
    assert_eq!(rt; store.capacity(), places);
    for i in 0..places {
        store.add((i as u64).wrapping_mul(factor))?;
    }
    assert_eq!(rt; store.count(), places);
    assert_eq!(rt; store.add(1), Err(Refusal::StoreFull));
    assert_eq!(rt; store.add(7), Err(Refusal::StoreFull));
    assert_eq!(rt; store.count(), places);
    // By index, since `word` is tested.
    for i in 0..places {
        assert_eq!(rt; store.word(i), Ok((i as u64).wrapping_mul(factor)));
    }
    assert_eq!(rt; store.word(places), Err(Refusal::NoWord));
    Ok(())
}
