// A slab whose log has a fault is stopped: its calls refuse with the fault and its place, and its figures are 0.
use crate::helpers::{figures, refuses_return, refuses_want};
use disk_slab::{Cold, Live};
use samples::store_of;
use slab_log::{Fault, Refusal, Size, Stop};
use std::process::Abort;
use std::test::Fail;
use store::{LogStore, OwnStore};

fn calls_refuse(rt: &impl Abort, slab: &mut Live<OwnStore>, stop: Stop) -> Result<(), Fail> {
    let stopped = Refusal::Stopped(stop);
    assert_eq!(rt; stopped.number(), 3);
    refuses_want(rt, slab, 1, stopped);
    refuses_want(rt, slab, 0, stopped);
    refuses_return(rt, slab, 50, 1, stopped)?;
    refuses_return(rt, slab, 50, 100, stopped)?;
    assert_eq!(rt; slab.condense(), Err(stopped));
    Ok(())
}

fn tells_its_fault(
    rt: &impl Abort,
    slab: &Live<OwnStore>,
    stop: Stop,
    words: usize,
) -> Result<(), Fail> {
    assert_eq!(rt; slab.fault(), Some(stop));
    assert_eq!(rt; slab.next(0), None);
    assert_eq!(rt; slab.size(), Size::new(100)?);
    figures(rt, slab, 0, 0, 0, words);
    Ok(())
}

fn is_stopped(
    rt: &impl Abort,
    slab: &mut Live<OwnStore>,
    stop: Stop,
    words: usize,
) -> Result<(), Fail> {
    calls_refuse(rt, slab, stop)?;
    tells_its_fault(rt, slab, stop, words)
}

// A slab of 100 sectors with a log of these words is stopped, and leaves its log as it is.
fn stops(rt: &impl Abort, words: &[u64], fault: Fault, place: usize) -> Result<(), Fail> {
    let stop = Stop { fault, place };
    let size = Size::new(100)?;
    let store = store_of(words)?;
    let mut slab = Cold::open(store, size).load();
    let done = is_stopped(rt, &mut slab, stop, words.len());
    let store = slab.close();
    done?;
    assert_eq!(rt; store.count(), words.len());
    Ok(())
}

#[test]
fn a_word_of_no_kind_stops_a_slab(rt: HostRuntime) -> Result<(), Fail> {
    // 50 to 59 allocated before it
    stops(&rt, &[0x0032_0009, 0xC000_0000_0000_0000], Fault::Kind, 1)
}

#[test]
fn a_return_of_free_sectors_stops_a_slab(rt: HostRuntime) -> Result<(), Fail> {
    stops(&rt, &[0x0032_8009], Fault::Again, 0)
}
