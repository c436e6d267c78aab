#![tactic(auto)]

// Whether lists handed in are the tree's, judged with no room: document 02, orders 6 and 12. No row is made again. Each row is strictly ascending
// and each entry passes the row's test, so it is part of the right one; each leaf meets as many sources as there are, so nothing is missing.
ghost use Rattle.std.specs.Prelude.{◌≡◌, ◌≤◌, get_or};
ghost use Rattle.tree.specs.Columns.{columns};
ghost use Rattle.tree.specs.WellFormed.{SoundTree};
ghost use Rattle.rows.specs.Written.{row_of};
ghost use Rattle.sums.specs.Tells.{Tells};
ghost use Rattle.sums.specs.Right.{StartsRight, ListsRight, lists_are};
ghost use Rattle.list_rows.specs.Entries.{Counted, Table, Cell};
ghost use Rattle.list_rows.specs.Rows.{too_many};
ghost use Rattle.list_check.specs.Checks.{Started, FarSays, NearRight, NodeSays, Below};
ghost use Rattle.list_check.specs.Answers.{right_answer};

use list_rows::Row;
use morton::keys;
use refusal::Refusal;

// Whether the starts go from 0 to the number of list keys, one more than there are nodes, and never fall.
fn starts_right(key: &[u64], starts: &[usize], flat: &[u64]) -> bool
    ensures { Tells (StartsRight key.now starts.now flat.now) result }
{
    if starts.len() != key.len() + 1 {
        return false;
    }
    if starts[0] != 0 {
        return false;
    }
    for i in 0..key.len() {
        if starts[i + 1] < starts[i] {
            return false;
        }
    }
    if starts[key.len()] != flat.len() {
        return false;
    }
    true
}

// A node below the root, with its place and its parent's.
fn row_of(axes: usize, key: &[u64], own: &[usize], node: usize) -> Row
    requires { SoundTree axes key.now own.now × Below key.now node }
    ensures cell { Cell axes key.now result }
    ensures key { result.cell ≡ get_or key.now node 0 }
{
    let cell = key[node];
    let place = places::place_of(axes, cell);
    let above = places::place_of(axes, keys::parent_of(axes, cell));
    Row { cell, place, above }
}

// How many sources are met above a node and in its V row, if that row passes.
fn far_sources(
    axes: usize,
    key: &[u64],
    own: &[usize],
    total: &[usize],
    nodes: &mut [usize],
    spots: &mut [u64],
    starts: &[usize],
    flat: &[u64],
    node: usize,
    row: Row,
    above: usize,
) -> Option<usize>
    requires counted { Counted axes key.now own.now total.now × Table axes key.now nodes.old spots.old × StartsRight key.now starts.now flat.now }
    requires below { Below key.now node × Cell axes key.now row × (row.cell ≡ get_or key.now node 0) × (above ≤ too_many) }
    ensures says { FarSays axes key.now own.now total.now starts.now flat.now node above result }
    ensures table { Table axes key.now nodes.new spots.new }
{
    let from = starts[node];
    let to = starts[node + 1];
    let count = list_rows::row_sources(
        axes,
        key,
        own,
        total,
        nodes,
        spots,
        true,
        row,
        &flat[from..to],
    )?;
    Some(list_rows::held(above + count))
}

// Whether the U row of a node passes, and brings the rest of all sources.
fn near_right(
    axes: usize,
    key: &[u64],
    own: &[usize],
    total: &[usize],
    nodes: &mut [usize],
    spots: &mut [u64],
    starts: &[usize],
    flat: &[u64],
    node: usize,
    row: Row,
    met: usize,
) -> bool
    requires counted { Counted axes key.now own.now total.now × Table axes key.now nodes.old spots.old × StartsRight key.now starts.now flat.now }
    requires below { Below key.now node × Cell axes key.now row × (row.cell ≡ get_or key.now node 0) × (met ≤ too_many) }
    ensures tells { Tells (NearRight axes key.now own.now total.now starts.now flat.now node met) result }
    ensures table { Table axes key.now nodes.new spots.new }
{
    let from = starts[node];
    let to = starts[node + 1];
    if !tree::is_leaf(axes, key, node) {
        return to <= from;
    }
    let brought = list_rows::row_sources(
        axes,
        key,
        own,
        total,
        nodes,
        spots,
        false,
        row,
        &flat[from..to],
    );
    let Some(count) = brought else {
        return false;
    };
    count + met == total[0]
}

// How many sources are met above a node and in its V row, if both its rows are right.
fn node_sources(
    axes: usize,
    key: &[u64],
    own: &[usize],
    total: &[usize],
    nodes: &mut [usize],
    spots: &mut [u64],
    u_starts: &[usize],
    u_keys: &[u64],
    v_starts: &[usize],
    v_keys: &[u64],
    node: usize,
    above: usize,
) -> Option<usize>
    requires counted { Counted axes key.now own.now total.now × Table axes key.now nodes.old spots.old × Started key.now u_starts.now u_keys.now
        v_starts.now v_keys.now }
    requires below { Below key.now node × (above ≤ too_many) }
    ensures says { NodeSays axes key.now own.now total.now u_starts.now u_keys.now
        v_starts.now v_keys.now node above result }
    ensures table { Table axes key.now nodes.new spots.new }
{
    let row = row_of(axes, key, own, node);
    let met = far_sources(
        axes, key, own, total, nodes, spots, v_starts, v_keys, node, row, above,
    )?;
    if near_right(
        axes, key, own, total, nodes, spots, u_starts, u_keys, node, row, met,
    ) {
        return Some(met);
    }
    None
}

// Whether the rows of all nodes are right. What is met in the V rows rides on the path from the root, one count for each level.
fn rows_right(
    axes: usize,
    key: &[u64],
    own: &[usize],
    total: &[usize],
    u_starts: &[usize],
    u_keys: &[u64],
    v_starts: &[usize],
    v_keys: &[u64],
) -> bool
    requires { Counted axes key.now own.now total.now × Started key.now u_starts.now u_keys.now v_starts.now v_keys.now }
    ensures { Tells (ListsRight axes key.now own.now (row_of key.now u_starts.now u_keys.now)
        (row_of key.now v_starts.now v_keys.now)) result }
{
    if u_starts[1] != 0 {
        return false;
    }
    if v_starts[1] != 0 {
        return false;
    }
    let mut nodes = [0usize; 4096];
    let mut spots = [0u64; 4096];
    let mut far = [0usize; 17];
    for node in 1..key.len() {
        let level = (key[node] % 32768) as usize;
        let above = far[level - 1];
        let says = node_sources(
            axes, key, own, total, &mut nodes, &mut spots, u_starts, u_keys, v_starts, v_keys,
            node, above,
        );
        let Some(met) = says else {
            return false;
        };
        far[level] = met;
    }
    true
}

// The same with the starts, for a tree that is well formed.
pub fn are_lists(
    axes: usize,
    key: &[u64],
    own: &[usize],
    total: &[usize],
    u_starts: &[usize],
    u_keys: &[u64],
    v_starts: &[usize],
    v_keys: &[u64],
) -> bool
    requires { Counted axes key.now own.now total.now }
    ensures { result ≡ lists_are axes key.now own.now u_starts.now u_keys.now v_starts.now
        v_keys.now }
{
    if !starts_right(key, u_starts, u_keys) {
        return false;
    }
    if !starts_right(key, v_starts, v_keys) {
        return false;
    }
    rows_right(axes, key, own, total, u_starts, u_keys, v_starts, v_keys)
}

// Whether the lists are the tree's, for any arguments.
pub fn lists_right(
    axes: usize,
    key: &[u64],
    own: &[usize],
    begin: &[usize],
    total: &[usize],
    u_starts: &[usize],
    u_keys: &[u64],
    v_starts: &[usize],
    v_keys: &[u64],
) -> Result<bool, Refusal>
    ensures { result ≡ right_answer axes (columns key.now own.now begin.now total.now)
        u_starts.now u_keys.now v_starts.now v_keys.now }
{
    sourced::check_tree(axes, key, own, begin, total)?;
    Ok(are_lists(axes, key, own, total, u_starts, u_keys, v_starts, v_keys))
}
