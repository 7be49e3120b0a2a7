// The unused records, chained through the records themselves.
ghost use Rattle.std.specs.Prelude.{◌≡◌, ℕ, ◌<◌, ◌≤◌, List, length, Some, slice_set};
ghost use Rattle.std.specs.List.{slice_get};
ghost use Rattle.table.specs.Tree.{Item, uses};
ghost use Rattle.table.specs.Parts.{front_at};
ghost use Rattle.table.specs.Sound.{spare, Chain};

use crate::node::{NONE, Node};
use crate::side::Links;
use crate::tree::balance::read;

// Puts a record in front of the chain that begins at `next`. That its place is within the slice is owed as a number, as by all functions
// of a tree.
pub(crate) fn give_back<K: Copy, V: Copy>(nodes: &mut [Node<K, V>], next: u16, at: u16)
    requires { at < length nodes.old }
    ensures { (n : Node K V) → slice_get nodes.old at ≡ Some n → nodes.new ≡ slice_set nodes.old at (spare n.key n.value next) }
{
    nodes[at as usize] = Node {
        links: Links {
            left: next,
            right: NONE,
        },
        height: 0,
        ..*read(nodes, at)
    };
}

// Chains all records, and answers where the chain begins. By place, as `give_back` puts one record of a slice in front of a chain; the
// places are what the chain links.
pub(crate) fn chain_all<K: Copy, V: Copy>(nodes: &mut [Node<K, V>]) -> u16
    requires { length nodes.old ≤ 1024 }
    ensures { (us : List (Item K V)) × Chain nodes.new us × (result ≡ front_at us) × ((j : ℕ) → j < length nodes.new → uses j us ≡ 1) }
{
    let mut unused = NONE;
    for at in (0..nodes.len() as u16).rev() {
        give_back(nodes, unused, at);
        unused = at;
    }
    unused
}
