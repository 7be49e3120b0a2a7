// Tables that are filled in order, refuse one more, and are emptied.
use crate::model::*;
use table::{LengthTable, StartTable, least_nodes};

#[test]
fn ascending(rt: HostRuntime) {
    let mut table = StartTable::new();
    for start in 0..1024 {
        assert!(rt; table.insert(start, start + 1));
    }
    assert!(rt; !table.insert(5000, 1));
    assert!(rt; !table.insert(3, 9));
    assert_eq!(rt; table.len(), 1024);
    assert_eq!(rt; key_of(table.last()), Some(1023));
    assert_eq!(rt; table.get(3), Some(4));
    for start in 0..1024 {
        assert_eq!(rt; table.remove(start), Some(start + 1));
    }
    assert_eq!(rt; table.len(), 0);
    assert_eq!(rt; table.last(), None);
    assert_eq!(rt; table.remove(3), None);
}

#[test]
fn descending(rt: HostRuntime) {
    let mut table = StartTable::new();
    for start in (0..1024).rev() {
        assert!(rt; table.insert(start, 7));
    }
    assert!(rt; !table.insert(5000, 1));
    assert_eq!(rt; key_of(table.lowest_from(0)), Some(0));
    assert_eq!(rt; key_of(table.highest_before(1)), Some(0));
    assert_eq!(rt; key_of(table.highest_before(0)), None);
    assert_eq!(rt; key_of(table.lowest_from(1024)), None);
    for start in (0..1024).rev() {
        assert_eq!(rt; key_of(table.last()), Some(start));
        assert_eq!(rt; table.remove(start), Some(7));
    }
    assert_eq!(rt; table.len(), 0);
    assert!(rt; table.insert(5000, 1));
}

#[test]
fn both_sides_of_a_start(rt: HostRuntime) {
    let mut table = StartTable::new();
    for start in [10, 20, 30] {
        assert!(rt; table.insert(start, 1));
    }
    let at = table.beside(20);
    assert_eq!(rt; key_of(at.below), Some(10));
    assert_eq!(rt; key_of(at.from), Some(20));
    let low = table.beside(10);
    assert_eq!(rt; key_of(low.below), None);
    assert_eq!(rt; key_of(low.from), Some(10));
    let high = table.beside(31);
    assert_eq!(rt; key_of(high.below), Some(30));
    assert_eq!(rt; key_of(high.from), None);
}

#[test]
fn spans_in_order(rt: HostRuntime) {
    let mut table = LengthTable::new();
    for number in 0..1024 {
        assert!(rt; table.insert(span_of(number), ()));
    }
    assert!(rt; !table.insert(span_of(1024), ()));
    assert_eq!(rt; key_of(table.last()), Some(span_of(1023)));
    for number in 0..1024 {
        assert_eq!(rt;
            key_of(table.lowest_from(span_of(0))),
            Some(span_of(number))
        );
        assert_eq!(rt; table.remove(span_of(number)), Some(()));
    }
    assert_eq!(rt; table.len(), 0);
}

#[test]
fn fewest_nodes(rt: HostRuntime) {
    assert_eq!(rt; least_nodes(14), Some(986));
    assert_eq!(rt; least_nodes(15), Some(1596));
    assert_eq!(rt; least_nodes(16), None);
}

// A record of two 64-bit numbers takes 24 bytes.
#[test]
fn records_are_small(rt: HostRuntime) {
    assert!(rt; std::mem::size_of::<StartTable>() <= 1024 * 24 + 8);
    assert!(rt; std::mem::size_of::<LengthTable>() <= 1024 * 24 + 8);
}
