// Ways through a tree: down from the root, noted step by step, and back up. The ways down are loops over links: at each node of `seek` a side
// is chosen and noted, so that an iterator over the way would be no plainer. In `left_end` a `for`
// over `successors` was tried: the loop still keeps the link before, reads a left link at two places, and its proof did not close
// (`loop-next-init`, that the closure may be called after any calls).
ghost use Rattle.std.specs.Prelude.{◌≡◌, ℕ, ◌≤◌, List, [], ◌++◌};
ghost use Rattle.table.specs.Tree.{Tree, tall, inorder};
ghost use Rattle.table.specs.Path.{Frame, Climb, Climbed, front, back, top};
ghost use Rattle.table.specs.Search.{Whole, Descent, Under, Over, Keyed};
ghost use Rattle.table.specs.Remove.{Stem, Leftward, LeftEnd};

use super::balance::{read, refit};
use crate::key::Key;
use crate::node::{NONE, Node};
use crate::side::Side;
use arrayvec::ArrayVec;

// One step of a way down: the node that it leaves, and to which side.
#[derive(Clone, Copy, Default)]
pub(crate) struct Step {
    pub(crate) at: u16,
    pub(crate) side: Side,
}

// The most steps of a way down a tree of at most 1,024 nodes.
const DEEP: usize = 14;

// The steps of a way down, from the root on.
pub(crate) type Path = ArrayVec<Step, DEEP>;

// Goes back up a way, and balances each node of it over the tree that is new below, until nothing changes above.
pub(crate) fn climb<K: Copy, V: Copy>(nodes: &mut [Node<K, V>], path: &mut Path, link: u16) -> u16
    requires { (fs : List (Frame K V)) × (t : Tree K V) × (h : ℕ) × Climb nodes.old path.old.items link fs t h }
    ensures { (fs : List (Frame K V)) (t : Tree K V) (h : ℕ) → Climb nodes.old path.old.items link fs t h → Climbed nodes.old nodes.new result (front fs ++ (inorder t ++ back fs)) (top fs h) }
{
    let root = path.first().map_or(link, |first| first.at);
    let mut sub = link;
    while let Some(step) = path.pop() {
        let Some(link) = refit(nodes, step.at, step.side, sub) else {
            return root;
        };
        sub = link;
    }
    sub
}

// Goes down to the node of a key, or to no node where there is none, and answers its link. The steps go into a path that is lent, here and in
// `left_end`: given back by value it would be copied.
pub(crate) fn seek<K: Key, V: Copy>(nodes: &[Node<K, V>], root: u16, key: K, path: &mut Path) -> u16
    requires tree { (t : Tree K V) × Whole K.before nodes.now root t × (tall t ≤ 14) }
    requires empty { path.old.items ≡ [] }
    ensures { (t : Tree K V) → Whole K.before nodes.now root t → tall t ≤ 14 → Descent K.before (Under K.before key) (Over K.before key) nodes.now path.new.items result t × Keyed nodes.now result key }
{
    let mut link = root;
    while link != NONE {
        let n = read(nodes, link);
        if key.precedes(n.key) {
            path.push(Step {
                at: link,
                side: Side::Left,
            });
            link = n.links.left;
        } else if n.key.precedes(key) {
            path.push(Step {
                at: link,
                side: Side::Right,
            });
            link = n.links.right;
        } else {
            break;
        }
    }
    link
}

// Goes down to the first node of a tree.
pub(crate) fn left_end<K: Copy, V: Copy>(nodes: &[Node<K, V>], root: u16, path: &mut Path) -> u16
    requires tree { (t : Tree K V) × Stem nodes.now root t }
    requires empty { path.old.items ≡ [] }
    ensures { (t : Tree K V) → Stem nodes.now root t → Leftward nodes.now path.new.items result t × LeftEnd nodes.now result }
{
    let mut link = root;
    loop {
        let n = read(nodes, link);
        if n.links.left == NONE {
            return link;
        }
        path.push(Step {
            at: link,
            side: Side::Left,
        });
        link = n.links.left;
    }
}
