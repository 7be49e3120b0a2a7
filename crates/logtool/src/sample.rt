// A small image, to try the tool on.
use crate::failure::Failure;
use crate::files::{list_file, write_new};
use slab_log::{Effect, Extent};
use store::{ImageStore, LogStore, add_extent, format};

// Eleven places behind the header.
const SAMPLE_BYTES: usize = 104;

// A debug word: action 1, pass 5, transaction group 1000.
const NOTE: u64 = 0x9014_0000_0000_03E8;

fn add_words<S: LogStore>(store: &mut S) -> Result<(), Failure> {
    add_extent(store, Effect::Allocates, Extent::new(0, 35)?)?;
    add_extent(store, Effect::Allocates, Extent::new(50, 40_000)?)?;
    store.add(NOTE)?;
    add_extent(store, Effect::Frees, Extent::new(10, 20)?)?;
    Ok(())
}

// The bytes of a small image.
pub(crate) fn sample_image(rt: &HostRuntime) -> Result<Vec<u8>, Failure> {
    let mut image = Vec::from_elem(rt.alloc(), 0u8, SAMPLE_BYTES)?;
    format(&mut image)?;
    let mut store = ImageStore::attach(&mut image);
    add_words(&mut store)?;
    let _ = store.detach();
    Ok(image)
}

// Makes a file with a small image, and lists it.
pub(crate) fn make_sample(rt: &HostRuntime, path: &str) -> Result<(), Failure> {
    let image = sample_image(rt)?;
    write_new(rt, path, &image)?;
    list_file(rt, path)
}
