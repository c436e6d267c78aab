// The nodes near a node, found in what lies around its parent, and sums over them.
ghost use Rattle.std.specs.Prelude.{◌≡◌, ◌≤◌, ◌<◌, length, get_or};
ghost use Rattle.slices.specs.Lists.{sum};
ghost use Rattle.tree.specs.WellFormed.{most_sources, SoundTree};
ghost use Rattle.around.specs.Parting.{near_at};
ghost use Rattle.node_rows.specs.Stack.{Ready, NearNode};
ghost use Rattle.node_rows.specs.Near.{Marked, entries_at, near_entries, Summable};

use crate::{COUNT, LEVEL_ROOM, index_of};
use around::{FRAME_ROOM, MASKS, PLACES};

// Puts the positions of the masks that have bit s: each is stored, and the next one takes its place unless it counts.
fn mark_near(masks: &[usize], c: usize, s: u64, near: &mut [usize]) -> usize
    requires { (c ≤ length masks.now) × (s < 64) × (length (near_at masks.now c s) ≤ 27) × (28 ≤ length near.old) }
    ensures { Marked masks.now s near.new result c }
{
    let mut t: usize = 0;
    for j in 0..c {
        let bit = (masks[j] >> s) % 2;
        near[t] = j;
        t += bit;
    }
    t
}

// Finds the nodes near a node: their positions among the entries around its parent. Answers how many they are.
pub fn find_near(
    axes: usize,
    key: &[u64],
    own: &[usize],
    node: usize,
    stack: &[usize],
    held: &[u64],
    near: &mut [usize],
) -> usize
    requires sound_tree { SoundTree axes key.now own.now × (0 < node) × (node < length key.now) × (28 ≤ length near.old) }
    requires ready { Ready axes key.now own.now node stack.now held.now }
    ensures { NearNode axes key.now own.now node stack.now near.new result }
{
    let k = key[node];
    let s = index_of(axes, k);
    let at = LEVEL_ROOM * ((k % 32768) as usize - 1);
    let layer = &stack[at..at + LEVEL_ROOM];
    mark_near(&layer[MASKS..FRAME_ROOM], layer[COUNT], s, near)
}

// The sum of a column's entries for the nodes at some positions.
fn sum_at(nodes: &[usize], near: &[usize], t: usize, column: &[usize]) -> usize
    requires { Summable nodes.now near.now t column.now }
    ensures { result ≡ sum (entries_at nodes.now near.now t column.now) }
{
    let mut r: usize = 0;
    for at in &near[..t] {
        r += column[nodes[*at]];
    }
    r
}

// The sum of a column's entries for the nodes near a node.
pub fn near_sum(
    axes: usize,
    key: &[u64],
    own: &[usize],
    node: usize,
    stack: &[usize],
    near: &[usize],
    t: usize,
    column: &[usize],
) -> usize
    requires sound_tree { SoundTree axes key.now own.now × (0 < node) × (node < length key.now) × (10400 ≤ length stack.now) }
    requires near_node { NearNode axes key.now own.now node stack.now near.now t × (length key.now ≤ length column.now) }
    requires column_bound { sum (near_entries axes key.now own.now (get_or key.now node 0) column.now) ≤ most_sources }
    ensures { result ≡ sum (near_entries axes key.now own.now (get_or key.now node 0) column.now) }
{
    let at = LEVEL_ROOM * ((key[node] % 32768) as usize - 1);
    let layer = &stack[at..at + LEVEL_ROOM];
    sum_at(&layer[..PLACES], near, t, column)
}
