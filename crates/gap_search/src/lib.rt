#![tactic(auto)]

// The search for the one cell in which a further source changes a tree: the first on the way down that is no node with children. Document 02, order 7.
ghost use Rattle.std.specs.Prelude.{◌≡◌, ◌*◌, ◌^◌, ◌≤◌, ◌<◌};
ghost use Rattle.tree.specs.Leaves.{cell_of};
ghost use Rattle.tree.specs.Finding.{TreeKeys};
ghost use Rattle.gap_search.specs.Search.{Inner, GapLevel};

// The cell of a level that holds the code.
fn cell_at(axes: usize, level: u64, code: u64) -> u64
    requires { (axes ≤ 3) × (level ≤ 16) × (code < 281474976710656) }
    ensures { result ≡ cell_of axes level code }
{
    let shift = axes as u64 * (16 - level);
    (code >> shift) * 32768 + level
}

// Whether a node is the cell, and has children or is the root.
fn is_inner(axes: usize, key: &[u64], node: usize, cell: u64) -> bool
    requires { TreeKeys axes key.now }
    ensures { Inner axes key.now node cell result }
{
    if key.len() <= node {
        return false;
    }
    if key[node] != cell {
        return false;
    }
    !tree::is_leaf(axes, key, node)
}

// The level of the first cell on the way down that is no node with children.
pub fn gap_level(axes: usize, key: &[u64], code: u64) -> u64
    requires { TreeKeys axes key.now × (code < 2 ^ (axes * 16)) × (code < 281474976710656) }
    ensures { GapLevel axes key.now code result }
{
    for level in 1..16 {
        let cell = cell_at(axes, level, code);
        let node = tree::first_from(axes, key, cell);
        if !is_inner(axes, key, node, cell) {
            return level;
        }
    }
    16
}
