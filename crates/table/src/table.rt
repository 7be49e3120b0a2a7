// A table: pairs of a key and a value, by rising key, in a fixed number of records.
ghost use Rattle.table.specs.Sound.{Sound};
ghost use Rattle.table.specs.OneWay.{sound_prop};

use crate::chain::{chain_all, give_back};
use crate::key::{Key, LengthKey};
use crate::node::{Beside, Entry, Heads, Item, NONE, Node, RECORDS};
use crate::side::Links;
use crate::tree::balance::read;
use crate::tree::edit;
use crate::tree::find::{around, right_end};
use crate::tree::replace::{refill, replaceable};

// The table of starts: for each start a length.
pub type StartTable = Table<u64, u64>;

// The table of lengths: by rising length, and by rising start where they are equally long.
pub type LengthTable = Table<LengthKey, ()>;

// At most 1,024 pairs, of unequal keys.
#[derive(Drop)]
pub struct Table<K: Key, V: Copy> {
    // Linked by index, and no map of the library: a table has no heap, and its memory is fixed.
    nodes: [Node<K, V>; RECORDS],
    heads: Heads,
    ghost sound: { Sound K.before nodes heads } by { sound_prop K.code V.code K.before nodes heads },
}

impl<K: Key + Default, V: Copy + Default> Table<K, V> {
    ghost use Rattle.std.specs.Prelude.{◌≡◌, []};
    ghost use Rattle.table.specs.Table.{pairs};

    // An empty table.
    pub fn new() -> Table<K, V>
        ensures { pairs result ≡ [] }
    {
        let blank = Node {
            key: K::default(),
            value: V::default(),
            links: Links::NONE,
            height: 0,
        };
        let mut nodes = [blank; RECORDS];
        let unused = chain_all(&mut nodes);
        let heads = Heads {
            root: NONE,
            unused,
            len: 0,
        };
        Table { nodes, heads }
    }
}

impl<K: Key, V: Copy> Table<K, V> {
    ghost use Rattle.std.specs.Prelude.{◌≡◌, ◌≤◌, length};
    ghost use Rattle.table.specs.Pairs.{pair, Ordered, find, under, from, first, last, Inserts, Removes, Replaces};
    ghost use Rattle.table.specs.Sound.{entry_at};
    ghost use Rattle.table.specs.Table.{pairs};

    // How many pairs there are.
    pub fn len(&self) -> usize
        ensures counts { result ≡ length (pairs self.now) }
        ensures most { result ≤ 1024 }
        ensures ordered { Ordered K.before (pairs self.now) }
    {
        self.heads.len as usize
    }

    // Puts a pair in, and answers whether it did: not where the key is there, or the table is full. A caller that must tell the two apart
    // asks `len`; an error for the two would be an enum that no caller reads.
    pub fn insert(&mut self, key: K, value: V) -> bool
        ensures { Inserts K.before (pairs self.old) (pairs self.new) (pair key value) result }
    {
        let at = self.heads.unused;
        if at == NONE {
            return false;
        }
        let next = read(&self.nodes, at).links.left;
        let Some(root) = edit::insert(&mut self.nodes, self.heads.root, Item { at, key, value })
        else {
            return false;
        };
        self.heads = Heads {
            root,
            unused: next,
            len: self.heads.len + 1,
        };
        true
    }

    // Takes the pair of a key out, and answers its value; nothing where the key is not there.
    pub fn remove(&mut self, key: K) -> Option<V>
        ensures { Removes K.before (pairs self.old) (pairs self.new) key result }
    {
        let taken = edit::remove(&mut self.nodes, self.heads.root, key)?;
        let value = read(&self.nodes, taken.at).value;
        give_back(&mut self.nodes, self.heads.unused, taken.at);
        self.heads = Heads {
            root: taken.rest,
            unused: taken.at,
            len: self.heads.len - 1,
        };
        Some(value)
    }

    // Puts a pair in place of that of a key, where each other key lies on the same side of both keys, and answers whether it did. A caller
    // that must tell whether the key is there at all asks `get`.
    pub fn replace(&mut self, key: K, new: K, value: V) -> bool
        ensures { Replaces K.before (pairs self.old) (pairs self.new) key (pair new value) result }
    {
        let Some(at) = replaceable(&self.nodes, self.heads.root, key, new) else {
            return false;
        };
        refill(&mut self.nodes, at, new, value);
        true
    }

    // The value of a key.
    pub fn get(&self, key: K) -> Option<V>
        ensures { result ≡ find K.before key (pairs self.now) }
    {
        let found = self.lowest_from(key)?;
        if key.precedes(found.key) {
            None
        } else {
            Some(found.value)
        }
    }

    // The first pair whose key does not come before a key. This and the next are one line each, of the two sides of one search.
    pub fn lowest_from(&self, key: K) -> Option<Entry<K, V>>
        ensures { result ≡ first (from K.before key (pairs self.now)) }
    {
        self.entry_at(around(&self.nodes, self.heads.root, key).from)
    }

    // The last pair whose key comes before a key.
    pub fn highest_before(&self, key: K) -> Option<Entry<K, V>>
        ensures { result ≡ last (under K.before key (pairs self.now)) }
    {
        self.entry_at(around(&self.nodes, self.heads.root, key).below)
    }

    // The pairs on the two sides of a key: the last whose key comes before it, and the first whose key does not.
    pub fn beside(&self, key: K) -> Beside<Option<Entry<K, V>>>
        ensures below { result.below ≡ last (under K.before key (pairs self.now)) }
        ensures from { result.from ≡ first (from K.before key (pairs self.now)) }
    {
        let sides = around(&self.nodes, self.heads.root, key);
        Beside {
            below: self.entry_at(sides.below),
            from: self.entry_at(sides.from),
        }
    }

    // The last pair.
    pub fn last(&self) -> Option<Entry<K, V>>
        ensures { result ≡ last (pairs self.now) }
    {
        self.entry_at(right_end(&self.nodes, self.heads.root))
    }

    // The pair at a link; nothing at the link to no record, which is beyond them all.
    fn entry_at(&self, link: u16) -> Option<Entry<K, V>>
        ensures { result ≡ entry_at self.now.nodes link }
    {
        let n = self.nodes.get(link as usize)?;
        Some(Entry {
            key: n.key,
            value: n.value,
        })
    }
}
