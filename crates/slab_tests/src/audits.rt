// An audit of a slab that is not loaded: what its log holds, or its first fault.
use disk_slab::{Audit, Cold, Figures, Tally};
use samples::store_of;
use slab_log::{Fault, Size, Stop};
use std::process::Abort;
use std::test::Fail;
use store::Words;

// Audits a slab of 100 sectors with a log of these words twice, and looks whether the words are still there.
fn audits(rt: &impl Abort, words: &[u64], expected: Result<Audit, Stop>) -> Result<(), Fail> {
    let size = Size::new(100)?;
    let slab = Cold::open(store_of(words)?, size);
    let first = slab.audit();
    let second = slab.audit();
    let store = slab.close();
    assert_eq!(rt; first, expected);
    assert_eq!(rt; second, expected);
    assert!(rt; Words::of(&store).eq(words.iter().copied()));
    Ok(())
}

#[test]
fn a_log_of_all_kinds_of_words(rt: HostRuntime) -> Result<(), Fail> {
    // 50 to 59 and 0 to 9 allocated, 50 to 54 freed
    let words = [0x0032_0009, 0x9004_0000_0000_0001, 0x0000_0009, 0x0032_8004];
    let audit = Audit {
        tally: Tally {
            allocating: 2,
            freeing: 1,
            debug: 1,
        },
        figures: Figures {
            free: 85,
            extents: 2,
            longest: 45,
            words: 4,
        },
        condensed: 2,
    };
    audits(&rt, &words, Ok(audit))
}

#[test]
fn a_log_of_no_words(rt: HostRuntime) -> Result<(), Fail> {
    let audit = Audit {
        tally: Tally {
            allocating: 0,
            freeing: 0,
            debug: 0,
        },
        figures: Figures {
            free: 100,
            extents: 1,
            longest: 100,
            words: 0,
        },
        condensed: 0,
    };
    audits(&rt, &[], Ok(audit))
}

#[test]
fn a_log_with_a_fault(rt: HostRuntime) -> Result<(), Fail> {
    // 50 to 59 allocated, and freed twice
    let words = [
        0x0032_0009,
        0x0032_8009,
        0x9004_0000_0000_0001,
        0x0032_8009,
        0xC000_0000_0000_0000,
    ];
    let stop = Stop {
        fault: Fault::Again,
        place: 3,
    };
    audits(&rt, &words, Err(stop))
}
