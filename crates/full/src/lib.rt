#![tactic(auto)]

// Whether each cell of a tree that has children has all of them: document 02, orders 7 and 9. The cells are counted: no cell has more than 2^d
// children and each but the root is one, so there are 2^d for each cell with children, and the root, exactly where none lacks one.
ghost use Rattle.std.specs.Prelude.{◌≡◌, ◌<◌, length, get_or};
ghost use Rattle.tree.specs.Finding.{TreeKeys};
ghost use Rattle.sums.specs.Tells.{Tells};
ghost use Rattle.full.specs.Full.{has_children, Full};

// Whether a node has children: by the next row.
pub fn has_children(axes: usize, key: &[u64], node: usize) -> bool
    requires { TreeKeys axes key.now × (node < length key.now) }
    ensures { result ≡ has_children axes key.now (get_or key.now node 0) }
{
    let next = node + 1;
    if key.len() <= next {
        return false;
    }
    key[node] % 32768 < key[next] % 32768
}

// Whether each node with children has all.
pub fn is_full(axes: usize, key: &[u64]) -> bool
    requires { TreeKeys axes key.now }
    ensures { Tells (Full axes key.now) result }
{
    let mut split: usize = 0;
    for node in 0..key.len() {
        if has_children(axes, key, node) {
            split += 1;
        }
    }
    let fan = axes::children_of(axes);
    let rest = key.len() - 1;
    if rest % fan != 0 {
        return false;
    }
    rest / fan == split
}
