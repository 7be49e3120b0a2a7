// Nodes over two trees: joined as they are, or turned where one is two taller.
ghost use Rattle.std.specs.Prelude.{◌≡◌, ◌+◌, ◌<◌, ◌∷◌, ◌++◌, length, Some, slice_set};
ghost use Rattle.std.specs.List.{slice_get};
ghost use Rattle.table.specs.Tree.{Tree, Stands, tall, inorder};
ghost use Rattle.table.specs.Side.{across, links_of, link_on};
ghost use Rattle.table.specs.Edit.{item, cell_of, Room, Joined, Mended, Heavy, Uneven, Balanced, Refit, Refitted, tree_on};

use crate::node::{Item, NONE, Node};
use crate::side::{Links, Side};

// Lends the record at a link, to be read field by field.
pub(crate) fn read<K: Copy, V: Copy>(nodes: &[Node<K, V>], link: u16) -> &Node<K, V>
    requires { link < length nodes.now }
    ensures { slice_get nodes.now link ≡ Some result.now }
{
    &nodes[link as usize]
}

// How tall the tree at a link is.
fn height<K: Copy, V: Copy>(nodes: &[Node<K, V>], link: u16) -> u8
    requires { (t : Tree K V) × Stands nodes.now link t }
    ensures { (t : Tree K V) → Stands nodes.now link t → result ≡ tall t }
{
    if link == NONE {
        0
    } else {
        read(nodes, link).height
    }
}

// Puts a node over two trees.
pub(crate) fn join<K: Copy, V: Copy>(
    nodes: &mut [Node<K, V>],
    item: Item<K, V>,
    links: Links,
) -> u16
    requires { (l : Tree K V) × (r : Tree K V) × Room nodes.old item links l r }
    ensures { (l r : Tree K V) → Room nodes.old item links l r → Joined nodes.old nodes.new result item l r }
{
    let height = height(nodes, links.left).max(height(nodes, links.right)) + 1;
    nodes[item.at as usize] = Node {
        key: item.key,
        value: item.value,
        links,
        height,
    };
    item.at
}

// Puts a node over two trees of which the one on a side is two taller. One proof serves both sides.
fn turn<K: Copy, V: Copy>(
    nodes: &mut [Node<K, V>],
    item: Item<K, V>,
    links: Links,
    side: Side,
) -> u16
    requires { (l : Tree K V) × (r : Tree K V) × Room nodes.old item links l r × Heavy (tree_on side l r) (tree_on (across side) l r) }
    ensures { (l r : Tree K V) → Room nodes.old item links l r → Heavy (tree_on side l r) (tree_on (across side) l r) → Mended nodes.old nodes.new result (inorder l ++ item ∷ inorder r) (tall (tree_on side l r)) }
{
    let opposite = side.other();
    let heavy = links.on(side);
    let light = links.on(opposite);
    let top = read(nodes, heavy);
    let outer = top.links.on(side);
    let inner = top.links.on(opposite);
    let top_item = top.item(heavy);
    if height(nodes, inner) <= height(nodes, outer) {
        let low = join(nodes, item, Links::of(side, inner, light));
        join(nodes, top_item, Links::of(side, outer, low))
    } else {
        let mid = read(nodes, inner);
        let near = mid.links.on(side);
        let far = mid.links.on(opposite);
        let mid_item = mid.item(inner);
        let a = join(nodes, top_item, Links::of(side, outer, near));
        let b = join(nodes, item, Links::of(side, far, light));
        join(nodes, mid_item, Links::of(side, a, b))
    }
}

// Puts a node over two trees, and turns it where one is two taller.
pub(crate) fn balance<K: Copy, V: Copy>(
    nodes: &mut [Node<K, V>],
    item: Item<K, V>,
    links: Links,
) -> u16
    requires { (l : Tree K V) × (r : Tree K V) × Room nodes.old item links l r × Uneven l r }
    ensures { (l r : Tree K V) → Room nodes.old item links l r → Uneven l r → Balanced nodes.old nodes.new result item l r }
{
    let on_left = height(nodes, links.left);
    let on_right = height(nodes, links.right);
    if on_left > on_right + 1 {
        turn(nodes, item, links, Side::Left)
    } else if on_right > on_left + 1 {
        turn(nodes, item, links, Side::Right)
    } else {
        join(nodes, item, links)
    }
}

// Puts another link on a side of the node at a place, and writes its height. A place and a side, here and in `refit`, and no `Step`: what is
// changed is a node, whatever way led to it. That the place is within the slice is owed as a number, as by all functions of a tree.
fn relink<K: Copy, V: Copy>(nodes: &mut [Node<K, V>], at: u16, side: Side, link: u16, height: u8)
    requires { at < length nodes.old }
    ensures { (n : Node K V) → slice_get nodes.old at ≡ Some n → nodes.new ≡ slice_set nodes.old at (cell_of (item at n.key n.value) (links_of side link (link_on (across side) n.links)) height) }
{
    let n = &mut nodes[at as usize];
    n.links.put(side, link);
    n.height = height;
}

// Puts a tree on a side of the node at a place, in place of what is there, and turns the node where one side is two taller. Answers
// the link of the whole; nothing where the node still stands at its place, as tall as its record said.
pub(crate) fn refit<K: Copy, V: Copy>(
    nodes: &mut [Node<K, V>],
    at: u16,
    side: Side,
    near: u16,
) -> Option<u16>
    requires { (n : Node K V) × (l : Tree K V) × (r : Tree K V) × Refit nodes.old at side near n l r }
    ensures { (n : Node K V) (l r : Tree K V) → Refit nodes.old at side near n l r → Refitted nodes.old nodes.new at n l r result }
{
    let n = read(nodes, at);
    let far = n.links.on(side.other());
    let on_near = height(nodes, near);
    let on_far = height(nodes, far);
    if on_near.abs_diff(on_far) > 1 {
        let item = n.item(at);
        return Some(balance(nodes, item, Links::of(side, near, far)));
    }
    let height = on_near.max(on_far) + 1;
    let kept = height == n.height;
    relink(nodes, at, side, near, height);
    if kept { None } else { Some(at) }
}
