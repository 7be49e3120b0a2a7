// Words read and written, on examples.
use slab_log::{DebugWord, Effect, Entry, Extent, Fault, Span, encode};
use std::test::Fail;

#[test]
fn entries_read(rt: HostRuntime) {
    assert_eq!(rt;
        Entry::try_from(0),
        Ok(Entry::Allocate(Span { offset: 0, run: 1 }))
    );
    assert_eq!(rt;
        Entry::try_from(0x0032_0009),
        Ok(Entry::Allocate(Span {
            offset: 50,
            run: 10,
        }))
    );
    assert_eq!(rt;
        Entry::try_from(0x001E_8013),
        Ok(Entry::Free(Span {
            offset: 30,
            run: 20,
        }))
    );
    let last = Span {
        offset: 0x7FFF_FFFF_FFFF,
        run: 32_768,
    };
    assert_eq!(rt;
        Entry::try_from(0x7FFF_FFFF_FFFF_FFFF),
        Ok(Entry::Free(last))
    );
}

#[test]
fn other_words_read(rt: HostRuntime) {
    let plain = DebugWord {
        action: 0,
        pass: 0,
        group: 0,
    };
    assert_eq!(rt;
        Entry::try_from(0x8000_0000_0000_0000),
        Ok(Entry::Debug(plain))
    );
    let full = DebugWord {
        action: 3,
        pass: 1023,
        group: 0x3_FFFF_FFFF_FFFF,
    };
    assert_eq!(rt;
        Entry::try_from(0xBFFF_FFFF_FFFF_FFFF),
        Ok(Entry::Debug(full))
    );
    assert_eq!(rt; Entry::try_from(0xC000_0000_0000_0000), Err(Fault::Kind));
    assert_eq!(rt; Entry::try_from(u64::MAX), Err(Fault::Kind));
}

#[test]
fn entries_written(rt: HostRuntime) {
    assert_eq!(rt;
        encode(Effect::Allocates, Span { offset: 0, run: 35 }),
        0x22
    );
    assert_eq!(rt;
        encode(
            Effect::Allocates,
            Span {
                offset: 50,
                run: 10,
            },
        ),
        0x0032_0009
    );
    assert_eq!(rt;
        encode(
            Effect::Frees,
            Span {
                offset: 30,
                run: 20,
            },
        ),
        0x001E_8013
    );
}

#[test]
fn a_long_extent_is_cut(rt: HostRuntime) -> Result<(), Fail> {
    let extent = Extent::new(0, 40_000)?;
    assert_eq!(rt; extent.entries(), 2);
    assert_eq!(rt; extent.nth_word(Effect::Allocates, 0), Some(0x7FFF));
    assert_eq!(rt; extent.nth_word(Effect::Allocates, 1), Some(0x8000_1C3F));
    assert_eq!(rt; extent.nth_word(Effect::Allocates, 2), None);
    assert_eq!(rt; extent.nth_word(Effect::Allocates, usize::MAX), None);
    Ok(())
}

#[test]
fn the_words_of_an_extent_come_in_order(rt: HostRuntime) -> Result<(), Fail> {
    let mut words = Extent::new(0, 40_000)?.words(Effect::Allocates);
    assert_eq!(rt; words.next(), Some(0x7FFF));
    assert_eq!(rt; words.next(), Some(0x8000_1C3F));
    assert_eq!(rt; words.next(), None);
    assert_eq!(rt; words.next(), None);
    Ok(())
}

#[test]
fn the_longest_run_is_one_entry(rt: HostRuntime) -> Result<(), Fail> {
    assert_eq!(rt; Extent::new(5, 32_768)?.entries(), 1);
    assert_eq!(rt; Extent::new(5, 32_769)?.entries(), 2);
    assert_eq!(rt; Extent::new(0, 67_108_864)?.entries(), 2048);
    assert_eq!(rt;
        Extent::new(5, 32_769)?.nth_word(Effect::Frees, 1),
        Some(0x8005_8000)
    );
    Ok(())
}
