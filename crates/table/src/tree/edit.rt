// Nodes put into a tree, and taken out of it. The records are a lent slice: lent as an
// array of 1,024 they would owe a bound on their bytes, which no generic key and value shows.
ghost use Rattle.std.specs.Prelude.{◌≤◌, length};
ghost use Rattle.table.specs.Tree.{Tree};
ghost use Rattle.table.specs.Search.{Whole, Free};
ghost use Rattle.table.specs.Remove.{Stem, MinTaken, Lifted};
ghost use Rattle.table.specs.Change.{Inserts, Removes};

use super::balance::{balance, join, read};
use super::path::{Path, climb, left_end, seek};
use crate::key::Key;
use crate::node::{Item, NONE, Node};
use crate::side::Links;

// A node that was taken out, and the root of what is left of the tree.
#[derive(Clone, Copy)]
pub(crate) struct Taken {
    pub(crate) at: u16,
    pub(crate) rest: u16,
}

// Puts a node into the tree at a place that it does not use, and answers the new root; nothing where the key is there.
pub(crate) fn insert<K: Key, V: Copy>(
    nodes: &mut [Node<K, V>],
    root: u16,
    item: Item<K, V>,
) -> Option<u16>
    requires tree { (t : Tree K V) × Whole K.before nodes.old root t × Free nodes.old item.at t }
    requires short { length nodes.old ≤ 1024 }
    ensures { (t : Tree K V) → Whole K.before nodes.old root t → Free nodes.old item.at t → Inserts K.before nodes.old nodes.new item t result }
{
    let mut path = Path::new();
    let link = seek(nodes, root, item.key, &mut path);
    if link != NONE {
        return None;
    }
    let new = join(nodes, item, Links::NONE);
    Some(climb(nodes, &mut path, new))
}

// Takes the first node out of a tree.
fn take_min<K: Copy, V: Copy>(nodes: &mut [Node<K, V>], root: u16) -> Taken
    requires { (t : Tree K V) × Stem nodes.old root t }
    ensures { (t : Tree K V) → Stem nodes.old root t → MinTaken nodes.old nodes.new result.at result.rest t }
{
    let mut path = Path::new();
    let at = left_end(nodes, root, &mut path);
    let right = read(nodes, at).links.right;
    let rest = climb(nodes, &mut path, right);
    Taken { at, rest }
}

// Takes the top node out of a tree.
fn lift<K: Copy, V: Copy>(nodes: &mut [Node<K, V>], root: u16) -> u16
    requires { (t : Tree K V) × Stem nodes.old root t }
    ensures { (t : Tree K V) → Stem nodes.old root t → Lifted nodes.old nodes.new root result t }
{
    let links = read(nodes, root).links;
    if links.right == NONE {
        links.left
    } else {
        let min = take_min(nodes, links.right);
        let item = read(nodes, min.at).item(min.at);
        let rest = Links {
            right: min.rest,
            ..links
        };
        balance(nodes, item, rest)
    }
}

// Takes the node of a key out of the tree; nothing where there is none.
pub(crate) fn remove<K: Key, V: Copy>(nodes: &mut [Node<K, V>], root: u16, key: K) -> Option<Taken>
    requires tree { (t : Tree K V) × Whole K.before nodes.old root t }
    requires short { length nodes.old ≤ 1024 }
    ensures { (t : Tree K V) → Whole K.before nodes.old root t → Removes K.before nodes.old nodes.new key t result }
{
    let mut path = Path::new();
    let at = seek(nodes, root, key, &mut path);
    if at == NONE {
        return None;
    }
    let sub = lift(nodes, at);
    let rest = climb(nodes, &mut path, sub);
    Some(Taken { at, rest })
}
