// A node's key and value changed where it stands, without going back up the tree.
ghost use Rattle.std.specs.Prelude.{◌≡◌, ◌<◌, ◌≤◌, true, false, length, Some, MatchOption, slice_set};
ghost use Rattle.std.specs.List.{slice_get};
ghost use Rattle.table.specs.Pairs.{alike};
ghost use Rattle.table.specs.Tree.{Tree, inorder};
ghost use Rattle.table.specs.Search.{Whole};
ghost use Rattle.table.specs.Change.{FindsReplaceable};
ghost use Rattle.table.specs.Edit.{refilled};

use super::balance::read;
use super::find::around;
use crate::key::Key;
use crate::node::Node;

// Whether the node at a link has a key.
fn has_key<K: Key, V: Copy>(nodes: &[Node<K, V>], link: u16, key: K) -> bool
    ensures { MatchOption (slice_get nodes.now link) (result ≡ false) (λ n. result ≡ alike K.before key n.key) }
{
    nodes
        .get(link as usize)
        .is_some_and(|n| !key.precedes(n.key) & !n.key.precedes(key))
}

// Whether a key comes before that of the node at a link; so it does where there is no node.
fn comes_before<K: Key, V: Copy>(nodes: &[Node<K, V>], key: K, link: u16) -> bool
    ensures { MatchOption (slice_get nodes.now link) (result ≡ true) (λ n. result ≡ K.before key n.key) }
{
    nodes.get(link as usize).is_none_or(|n| key.precedes(n.key))
}

// The place of the node of a key, where each other key lies on the same side of it and of a new one.
pub(crate) fn replaceable<K: Key, V: Copy>(
    nodes: &[Node<K, V>],
    root: u16,
    key: K,
    new: K,
) -> Option<u16>
    requires tree { (t : Tree K V) × Whole K.before nodes.now root t }
    requires short { length nodes.now ≤ 1024 }
    ensures { (t : Tree K V) → Whole K.before nodes.now root t → FindsReplaceable K.before key new (inorder t) result }
{
    let sides = around(nodes, root, new);
    if key.precedes(new) {
        let fits = has_key(nodes, sides.below, key) & comes_before(nodes, new, sides.from);
        fits.then_some(sides.below)
    } else {
        has_key(nodes, sides.from, key).then_some(sides.from)
    }
}

// Puts another key and value into a record. That its place is within the slice is owed as a number, as by all functions of a tree.
pub(crate) fn refill<K: Copy, V: Copy>(nodes: &mut [Node<K, V>], at: u16, key: K, value: V)
    requires { at < length nodes.old }
    ensures { (n : Node K V) → slice_get nodes.old at ≡ Some n → nodes.new ≡ slice_set nodes.old at (refilled key value n) }
{
    nodes[at as usize] = Node {
        key,
        value,
        ..*read(nodes, at)
    };
}
