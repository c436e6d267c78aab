// The calls on nodes for C, in any key column: finding a node by its key, whether it is a leaf, and the nodes of a level one after the other.
ghost use Rattle.std.specs.Prelude.{◌≡◌, ℕ, ◌<◌, length, get_or};
ghost use Rattle.tree.specs.Nodes.{leaf};
ghost use Rattle.tree.specs.Finding.{TreeKeys};
ghost use Rattle.exports_nodes.specs.Nodes.{Finds, leaf_row, FirstOfLevel};

// The node with a key, by its number; false, with number 0, where none is found.
#[unsafe(no_mangle)]
pub extern "C" fn lohandema_find_node(
    axes: usize,
    key: &[u64],
    wanted: u64,
    node: &mut usize,
) -> bool
    ensures { Finds axes key.now wanted result node.new }
{
    exports_nodes::lohandema_find_node(axes, key, wanted, node)
}

// Whether a node is a leaf, by the next row: for any column, and in a tree what the rules call a leaf.
#[unsafe(no_mangle)]
pub extern "C" fn lohandema_is_leaf(key: &[u64], node: usize) -> bool
    ensures row { result ≡ leaf_row key.now node }
    ensures tree { (d : ℕ) → TreeKeys d key.now → node < length key.now → result ≡ leaf d key.now (get_or key.now node 0) }
{
    exports_nodes::lohandema_is_leaf(key, node)
}

// The first node of a level from a number on; the number of nodes where there is none.
#[unsafe(no_mangle)]
pub extern "C" fn lohandema_next_of_level(key: &[u64], level: u64, from: usize) -> usize
    ensures { FirstOfLevel key.now level from result }
{
    exports_nodes::lohandema_next_of_level(key, level, from)
}
