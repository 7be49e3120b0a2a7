// Pairs put in place of others.
use crate::model::*;
use samples::{Random, step};
use table::StartTable;

#[test]
fn a_pair_gives_way(rt: HostRuntime) {
    let mut table = StartTable::new();
    for start in [10, 20, 30] {
        assert!(rt; table.insert(start, start + 1));
    }
    assert!(rt; table.replace(20, 25, 7));
    assert_eq!(rt; table.get(20), None);
    assert_eq!(rt; table.get(25), Some(7));
    assert!(rt; table.replace(25, 11, 8));
    assert_eq!(rt; table.get(11), Some(8));
    assert!(rt; table.replace(11, 11, 9));
    assert_eq!(rt; table.get(11), Some(9));
    assert_eq!(rt; table.len(), 3);
}

#[test]
fn no_pair_gives_way(rt: HostRuntime) {
    let mut table = StartTable::new();
    for start in [10, 20, 30] {
        assert!(rt; table.insert(start, start + 1));
    }
    // The key is not there; another is the new one; another lies between.
    assert!(rt; !table.replace(15, 16, 1));
    assert!(rt; !table.replace(20, 30, 1));
    assert!(rt; !table.replace(20, 10, 1));
    assert!(rt; !table.replace(10, 25, 1));
    assert!(rt; !table.replace(30, 15, 1));
    for start in [10, 20, 30] {
        assert_eq!(rt; table.get(start), Some(start + 1));
    }
}

// Whether another start than `at` is there, from one start to another.
fn another<V>(model: &[Option<V>], at: usize, from: usize, to: usize) -> bool {
    model.iter().enumerate().any(|(i, value)| i >= from && i <= to && i != at && value.is_some())
}

#[test]
fn starts(rt: HostRuntime) {
    let mut table = StartTable::new();
    let mut lengths: [Option<u64>; STARTS] = [None; STARTS];
    for random in Random::from_seed(3).take(3000) {
        let at = pick(random);
        let new = pick(step(random));
        let len = random % 1000 + 1;
        let fits = lengths[at].is_some() && !another(&lengths, at, at.min(new), at.max(new));
        assert_eq!(rt; table.replace(at as u64, new as u64, len), fits);
        if fits {
            lengths[at] = None;
            lengths[new] = Some(len);
        } else if table.insert(at as u64, len) {
            lengths[at] = Some(len);
        }
        assert_eq!(rt; table.get(new as u64), lengths[new]);
        assert_eq!(rt; table.get(at as u64), lengths[at]);
        assert_eq!(rt; table.len(), count(&lengths));
        assert_eq!(rt;
            key_of(table.last()),
            last_before(&lengths, STARTS).map(|i| i as u64)
        );
    }
}
