// The fewest nodes of a balanced tree, by height. They bound the way down a tree.
ghost use Rattle.std.specs.Prelude.{◌≡◌, ◌≤◌, length};
ghost use Rattle.std.specs.List.{slice_get};
ghost use Rattle.table.specs.Tree.{tall, inorder, Avl};
ghost use Rattle.table.specs.Least.{Shape, counts, Rising, Fewest};

// From the third on, each is one more than the two before it together.
const LEAST: [u64; 16] = [
    0, 1, 2, 4, 7, 12, 20, 33, 54, 88, 143, 232, 376, 609, 986, 1596,
];

// The fewest nodes that a balanced tree of a height has, for heights up to 15. A tree of at most 1,024 nodes is at most 14 high.
pub fn least_nodes(height: usize) -> Option<u64>
    ensures listed { result ≡ slice_get counts height }
    ensures rising { Rising counts }
    ensures fewest { (t : Shape) → Avl t → tall t ≡ height → Fewest result (length (inorder t)) }
    ensures low { (t : Shape) → Avl t → length (inorder t) ≤ 1024 → tall t ≤ 14 }
{
    LEAST.get(height).copied()
}
