#![tactic(auto)]

// The calls on nodes for C, in any key column: finding a node by its key, whether it is a leaf, and the nodes of a level one after the other.
ghost use Rattle.std.specs.Prelude.{◌≡◌, ℕ, ◌<◌, length, get_or};
ghost use Rattle.tree.specs.Nodes.{leaf};
ghost use Rattle.tree.specs.Finding.{TreeKeys};
ghost use Rattle.exports_nodes.specs.Nodes.{Finds, leaf_row, FirstOfLevel};

// The node with a key, by its number; false, with number 0, where none is found.
pub fn lohandema_find_node(axes: usize, key: &[u64], wanted: u64, node: &mut usize) -> bool
    ensures { Finds axes key.now wanted result node.new }
{
    if !axes::axes_known(axes) {
        *node = 0;
        return false;
    }
    let found = tree::find_node(axes, key, wanted);
    match found {
        Some(n) => {
            *node = n;
            true
        }
        None => {
            *node = 0;
            false
        }
    }
}

// Whether a node is a leaf, by the next row: for any column, and in a tree what the rules call a leaf.
pub fn lohandema_is_leaf(key: &[u64], node: usize) -> bool
    ensures row { result ≡ leaf_row key.now node }
    ensures tree { (d : ℕ) → TreeKeys d key.now → node < length key.now → result ≡ leaf d key.now (get_or key.now node 0) }
{
    if node < 1 {
        return false;
    }
    if key.len() <= node {
        return false;
    }
    let next = node + 1;
    if key.len() <= next {
        return true;
    }
    key[next] % 32768 <= key[node] % 32768
}

// The first node of a level from a number on; the number of nodes where there is none.
pub fn lohandema_next_of_level(key: &[u64], level: u64, from: usize) -> usize
    ensures { FirstOfLevel key.now level from result }
{
    for i in from..key.len() {
        if key[i] % 32768 == level {
            return i;
        }
    }
    key.len()
}
