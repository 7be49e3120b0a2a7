// The records of a table, and what a table answers.
ghost use Rattle.std.specs.Prelude.{◌≡◌};
ghost use Rattle.table.specs.Edit.{item};

use crate::side::Links;

// The link to no record. A number and no option: memory is fixed, and a record takes 24 bytes, which no option of the library leaves, and a
// type of two bytes with a method for it would be an option of our own. An `Option<u16>` takes 4 bytes, with a
// tag of its own, and so does an `Option<NonZeroU16>`; with links of either a record took 32, as measured by `size_of`.
pub(crate) const NONE: u16 = 65535;

// How many records a table has.
pub(crate) const RECORDS: usize = 1024;

// A record. In the tree it links the roots of its two sides; unused, it links the next unused one on the left. Key and value are no
// `Entry` here: a search reads the key alone at each step, and what is said of a record would name a field more.
#[derive(Clone, Copy)]
pub(crate) struct Node<K, V> {
    pub(crate) key: K,
    pub(crate) value: V,
    pub(crate) links: Links,
    pub(crate) height: u8,
}

// A node of a tree: the place of its record, its key and its value.
#[derive(Clone, Copy)]
pub(crate) struct Item<K, V> {
    pub(crate) at: u16,
    pub(crate) key: K,
    pub(crate) value: V,
}

impl<K: Copy, V: Copy> Node<K, V> {
    // The node of a tree that the record at a place is.
    pub(crate) fn item(&self, at: u16) -> Item<K, V>
        ensures { result ≡ item at self.now.key self.now.value }
    {
        Item {
            at,
            key: self.key,
            value: self.value,
        }
    }
}

// Where the tree and the chain of unused records begin, and how many records the tree has.
#[derive(Clone, Copy)]
pub(crate) struct Heads {
    pub(crate) root: u16,
    pub(crate) unused: u16,
    pub(crate) len: u16,
}

// A pair of a table.
#[derive(Clone, Copy, PartialEq, Eq, Debug)]
pub struct Entry<K, V> {
    pub key: K,
    pub value: V,
}

// What is on the two sides of a key: the last whose key comes before it, and the first whose key does not.
#[derive(Clone, Copy)]
pub struct Beside<T> {
    pub below: T,
    pub from: T,
}
