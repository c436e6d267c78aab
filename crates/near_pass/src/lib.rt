#![tactic(auto)]

// Near work by one pass over the nodes of a tree, with no list: the sources near each cell of the path to a node are kept as sums.
ghost use Rattle.std.specs.Prelude.{◌≡◌, true, false, ◌+◌, ◌≤◌, ◌<◌, length, get_or};
ghost use Rattle.links.specs.Links.{inner, LinkedTree};
ghost use Rattle.tree.specs.Nodes.{own_of};
ghost use Rattle.rows.specs.Lists.{near_work};
ghost use Rattle.node_rows.specs.Stack.{Ready, NearNode};
ghost use Rattle.near_pass.specs.Sums.{work_of, most_work, Weights, PathSums, SumsFor};

use around::NEAR_ROOM;
use node_rows::{HELD_ROOM, STACK_ROOM};

// The levels above the last, on which a node may have children.
const LEVELS: usize = 16;

// Keeps the sources near a node with children: those kept for its parent, and what the nodes near it own.
fn keep(
    axes: usize,
    key: &[u64],
    own: &[usize],
    total: &[usize],
    links: &[usize],
    node: usize,
    stack: &[usize],
    near: &[usize],
    t: usize,
    sums: &mut [usize],
)
    requires linked_tree { LinkedTree axes key.now own.now total.now links.now × (0 < node) × (node < length key.now) × (inner key.now node ≡ true) }
    requires in_bounds { (10400 ≤ length stack.now) × NearNode axes key.now own.now node stack.now near.now t × SumsFor axes key.now own.now node sums.old }
    ensures { SumsFor axes key.now own.now (node + 1) sums.new }
{
    let level = (key[node] % 32768) as usize;
    let here = node_rows::near_sum(axes, key, own, node, stack, near, t, own);
    sums[level] = sums[level - 1] + here;
}

// What a leaf adds: its targets times the sources near it, which are those kept for its parent and all in the nodes near it.
fn leaf_work(
    axes: usize,
    key: &[u64],
    own: &[usize],
    total: &[usize],
    counts: &[usize],
    node: usize,
    stack: &[usize],
    near: &[usize],
    t: usize,
    sums: &[usize],
) -> u64
    requires linked_tree { LinkedTree axes key.now own.now total.now counts.now × (0 < node) × (node < length key.now) × (inner key.now node ≡ false) }
    requires in_bounds { (10400 ≤ length stack.now) × NearNode axes key.now own.now node stack.now near.now t × SumsFor axes key.now own.now node sums.now × Weights axes key.now counts.now }
    ensures { result ≡ work_of axes key.now own.now counts.now (get_or key.now node 0) }
{
    let up = (key[node] % 32768) as usize - 1;
    let deeper = node_rows::near_sum(axes, key, own, node, stack, near, t, total);
    let sources = sums[up] + deeper;
    counts[node] as u64 * sources as u64
}

// What a node other than the root adds; what is around it is gathered where it has children.
fn visit(
    axes: usize,
    key: &[u64],
    own: &[usize],
    total: &[usize],
    counts: &[usize],
    node: usize,
    stack: &mut [usize],
    held: &mut [u64],
    sums: &mut [usize],
) -> u64
    requires linked_tree { LinkedTree axes key.now own.now total.now counts.now × (0 < node) × (node < length key.now) × Weights axes key.now counts.now }
    requires ready_2 { Ready axes key.now own.now node stack.old held.old × SumsFor axes key.now own.now node sums.old }
    ensures ready { Ready axes key.now own.now (node + 1) stack.new held.new }
    ensures sums { SumsFor axes key.now own.now (node + 1) sums.new }
    ensures work { result ≡ work_of axes key.now own.now counts.now (get_or key.now node 0) }
{
    let mut near = [0usize; NEAR_ROOM + 1];
    if links::has_children(key, node) {
        let t = node_rows::find_near(axes, key, own, node, stack, held, &mut near);
        keep(axes, key, own, total, counts, node, stack, &near, t, sums);
        node_rows::enter(axes, key, own, total, counts, node, &near, t, stack, held);
        return 0;
    }
    if counts[node] == 0 {
        return 0;
    }
    let t = node_rows::find_near(axes, key, own, node, stack, held, &mut near);
    leaf_work(axes, key, own, total, counts, node, stack, &near, t, sums)
}

// What all nodes add.
fn visit_all(
    axes: usize,
    key: &[u64],
    own: &[usize],
    total: &[usize],
    counts: &[usize],
    stack: &mut [usize],
    held: &mut [u64],
    sums: &mut [usize],
) -> u64
    requires linked_tree { LinkedTree axes key.now own.now total.now counts.now × Weights axes key.now counts.now }
    requires ready { Ready axes key.now own.now 1 stack.old held.old × SumsFor axes key.now own.now 1 sums.old }
    ensures { (result ≡ near_work axes key.now own.now (own_of key.now counts.now)) × (result ≤ most_work) }
{
    let mut work: u64 = 0;
    for node in 1..key.len() {
        work += visit(axes, key, own, total, counts, node, stack, held, sums);
    }
    work
}

// Near work of a tree, with the targets of each leaf at the leaves of `counts` and the links of the other nodes beside them.
pub fn work_of_tree(
    axes: usize,
    key: &[u64],
    own: &[usize],
    total: &[usize],
    counts: &[usize],
) -> u64
    requires { LinkedTree axes key.now own.now total.now counts.now × Weights axes key.now counts.now }
    ensures { (result ≡ near_work axes key.now own.now (own_of key.now counts.now)) × (result ≤ most_work) }
{
    let mut stack = [0usize; STACK_ROOM];
    let mut held = [0u64; HELD_ROOM];
    let mut sums = [0usize; LEVELS];
    node_rows::begin(axes, key, own, total, counts, &mut stack);
    visit_all(
        axes, key, own, total, counts, &mut stack, &mut held, &mut sums,
    )
}
