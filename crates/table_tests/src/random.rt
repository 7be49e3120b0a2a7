// Some thousand pseudo-random calls.
use crate::model::*;
use samples::{Random, step};
use std::fmt::Debug;
use std::process::Abort;
use table::{Key, LengthTable, StartTable, Table};

// Every answer about keys is the model's, where `key` gives the key that stands for a start.
fn same_keys<K: Key + PartialEq + Debug + Drop, V: Copy, F: Fn(usize) -> K>(
    rt: &impl Abort,
    table: &Table<K, V>,
    model: &[Option<V>],
    at: usize,
    key: F,
)
    requires { F.IsAlwaysCallable key }
{
    assert_eq!(rt;
        key_of(table.lowest_from(key(at))),
        first_from(model, at).map(&key)
    );
    assert_eq!(rt;
        key_of(table.highest_before(key(at))),
        last_before(model, at).map(&key)
    );
    assert_eq!(rt; key_of(table.last()), last_before(model, STARTS).map(&key));
}

#[test]
fn starts(rt: HostRuntime) {
    let mut table = StartTable::new();
    let mut lengths: [Option<u64>; STARTS] = [None; STARTS];
    for random in Random::from_seed(1).take(4000) {
        let at = pick(random);
        let had = lengths[at];
        assert_eq!(rt; table.get(at as u64), had);
        if random >> 62 != 0 {
            let len = random % 1000 + 1;
            let took = table.insert(at as u64, len);
            assert_eq!(rt; took, had.is_none() && count(&lengths) < 1024);
            if took {
                lengths[at] = Some(len);
            }
        } else {
            assert_eq!(rt; table.remove(at as u64), had);
            lengths[at] = None;
        }
        assert_eq!(rt; table.len(), count(&lengths));
        let other = pick(step(random));
        same_keys(&rt, &table, &lengths, other, |start| start as u64);
        let low = table.lowest_from(other as u64);
        assert_eq!(rt;
            low.map(|entry| entry.value),
            lengths.iter().skip(other).copied().flatten().next()
        );
    }
}

// This is not one function with `starts`: key, value, seed and how often a call inserts all differ, so it would be no plainer.
#[test]
fn spans(rt: HostRuntime) {
    let mut table = LengthTable::new();
    let mut there: [Option<()>; STARTS] = [None; STARTS];
    for random in Random::from_seed(7).take(4000) {
        let at = pick(random);
        let had = there[at];
        assert_eq!(rt; table.get(span_of(at)), had);
        if random >> 63 == 0 {
            let took = table.insert(span_of(at), ());
            assert_eq!(rt; took, had.is_none() && count(&there) < 1024);
            if took {
                there[at] = Some(());
            }
        } else {
            assert_eq!(rt; table.remove(span_of(at)), had);
            there[at] = None;
        }
        assert_eq!(rt; table.len(), count(&there));
        same_keys(&rt, &table, &there, pick(step(random)), span_of);
    }
}
