// Debug words, whatever their action, change nothing, and count as places.
use crate::helpers::{figures, stop_at};
use samples::store_of;
use slab_log::{DebugWord, Entry, Fault, Size, Stop};
use space::Space;
use std::test::Fail;

// The debug words with the actions 0 to 3; the last three have a pass and a group too.
const WORDS: [u64; 4] = [
    0x8000_0000_0000_0000,
    0x9004_0000_0000_0001,
    0xA008_0000_0000_0002,
    0xBFFF_FFFF_FFFF_FFFF,
];

fn debug(action: u8, pass: u16, group: u64) -> Result<Entry, Fault> {
    Ok(Entry::Debug(DebugWord {
        action,
        pass,
        group,
    }))
}

#[test]
fn the_words_have_the_four_actions(rt: HostRuntime) {
    assert_eq!(rt; Entry::try_from(WORDS[0]), debug(0, 0, 0));
    assert_eq!(rt; Entry::try_from(WORDS[1]), debug(1, 1, 1));
    assert_eq!(rt; Entry::try_from(WORDS[2]), debug(2, 2, 2));
    assert_eq!(rt;
        Entry::try_from(WORDS[3]),
        debug(3, 1_023, 0x3_FFFF_FFFF_FFFF)
    );
}

#[test]
fn a_space_takes_them_and_stays(rt: HostRuntime) -> Result<(), Fail> {
    let mut space = Space::new(Size::new(100)?);
    // 50 to 59
    space.take_word(0x0032_0009)?;
    for word in WORDS {
        assert_eq!(rt; space.take_word(word), Ok(()));
        assert_eq!(rt; space.apply(Entry::try_from(word)?), Ok(()));
        figures(&rt, &space, 90, 2, 50);
    }
    Ok(())
}

#[test]
fn replay_skips_them(rt: HostRuntime) -> Result<(), Fail> {
    let words = [
        WORDS[0],
        0x0032_0009,
        WORDS[1],
        WORDS[2],
        // frees 50 to 54
        0x0032_8004,
        WORDS[3],
    ];
    let store = store_of(&words)?;
    let space = Space::replay(&store, Size::new(100)?)?;
    figures(&rt, &space, 95, 2, 55);
    Ok(())
}

#[test]
fn they_count_as_places(rt: HostRuntime) -> Result<(), Fail> {
    let words = [
        WORDS[0],
        WORDS[1],
        WORDS[2],
        WORDS[3],
        0xC000_0000_0000_0000,
    ];
    let stop = Stop {
        fault: Fault::Kind,
        place: 4,
    };
    assert_eq!(rt; stop_at(&words, 100)?, Some(stop));
    Ok(())
}
