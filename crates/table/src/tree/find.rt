// Searches that change nothing. They are loops over links, and a link is answered as the records have it: `around` keeps two of them, and
// which it keeps is what it is for, so that an iterator over the way would be no plainer. In `right_end`
// `successors(..).last()` was tried: the library counts `successors` as endless, and `last` must prove ⊥. Cut off by `take` it is no
// plainer than the loop: it names a number of links, owes that the way has no more, and owes each read at any state of the iterator.
ghost use Rattle.std.specs.Prelude.{◌≡◌};
ghost use Rattle.table.specs.Tree.{Tree, inorder};
ghost use Rattle.table.specs.Search.{Whole};
ghost use Rattle.table.specs.Parts.{Parted, final};

use super::balance::read;
use crate::key::Key;
use crate::node::{Beside, NONE, Node};

// The last node whose key comes before a key, and the first whose key does not.
pub(crate) fn around<K: Key, V: Copy>(nodes: &[Node<K, V>], root: u16, key: K) -> Beside<u16>
    requires { (t : Tree K V) × Whole K.before nodes.now root t }
    ensures { (t : Tree K V) → Whole K.before nodes.now root t → Parted K.before key result.below result.from (inorder t) }
{
    let mut below = NONE;
    let mut from = NONE;
    let mut link = root;
    while link != NONE {
        let n = read(nodes, link);
        if n.key.precedes(key) {
            below = link;
            link = n.links.right;
        } else {
            from = link;
            link = n.links.left;
        }
    }
    Beside { below, from }
}

// The last node of a tree.
pub(crate) fn right_end<K: Key, V: Copy>(nodes: &[Node<K, V>], root: u16) -> u16
    requires { (t : Tree K V) × Whole K.before nodes.now root t }
    ensures { (t : Tree K V) → Whole K.before nodes.now root t → result ≡ final (inorder t) }
{
    let mut end = NONE;
    let mut link = root;
    while link != NONE {
        end = link;
        link = read(nodes, link).links.right;
    }
    end
}
