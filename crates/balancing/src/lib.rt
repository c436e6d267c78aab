#![tactic(auto)]

// The cells of the balanced tree in Z order, written one after the other: each cell is tested by what is stored around it.
ghost use Rattle.std.specs.Prelude.{◌≡◌, true, ℕ, ◌-◌, ◌≤◌, ◌<◌, length, get_or};
ghost use Rattle.slices.specs.Lists.{filled};
ghost use Rattle.morton.specs.Keys.{level_of, code_of, ValidKey};
ghost use Rattle.morton.specs.Anchors.{anchors as anchors_of};
ghost use Rattle.tree.specs.Order.{depth_of};
ghost use Rattle.tree.specs.Finding.{TreeKeys};
ghost use Rattle.balance.specs.Splitting.{off, inside, split, forced_by, must_split};
ghost use Rattle.balancing.specs.Walk.{split_among, next_after, next_cell, Put};

use morton::keys;

// On one axis: whether an anchor of cells 2^n times as small lies in the block round anchor r, off its ends.
fn is_off(n: u64, r: u64, p: u64) -> bool
    requires { (n ≤ 16) × (r < 65536) × (p < 65536) }
    ensures { result ≡ off n r p }
{
    let size: u64 = 1 << n;
    if p + size <= r * size {
        return false;
    }
    p + 1 < (r + 2) * size
}

// Whether cell p lies inside the block of cell r, whose anchors are given.
fn lies_inside(axes: usize, r: u64, from: [u64; 3], p: u64) -> bool
    requires { ValidKey axes r × ValidKey axes p × (from ≡ filled 3 (anchors_of axes r)) }
    ensures { result ≡ inside axes r p }
{
    let level = r % 32768;
    let deeper = p % 32768;
    if deeper < level {
        return false;
    }
    let at = anchors::anchors_of(axes, p);
    for n in (0..axes).rev() {
        if !is_off(deeper - level, from[n], at[n]) {
            return false;
        }
    }
    true
}

// Whether a node has a child: by the next row.
fn is_split(axes: usize, key: &[u64], node: usize) -> bool
    requires { TreeKeys axes key.now × (node < length key.now) }
    ensures { result ≡ split axes key.now (get_or key.now node 0) }
{
    let next = node + 1;
    if key.len() <= next {
        return false;
    }
    key[node] % 32768 < key[next] % 32768
}

// Whether a split cell among some nodes lies inside the block of cell r, whose anchors are given.
fn split_among(axes: usize, key: &[u64], r: u64, from: [u64; 3], first: usize, end: usize) -> bool
    requires { TreeKeys axes key.now × ValidKey axes r × (from ≡ filled 3 (anchors_of axes r)) × (first ≤ end) × (end ≤ length key.now) }
    ensures { result ≡ split_among axes key.now r first (end - first) }
{
    for i in first..end {
        if is_split(axes, key, i) && lies_inside(axes, r, from, key[i]) {
            return true;
        }
    }
    false
}

// Whether a split cell that is cell c or lies in it lies inside the block of cell r, whose anchors are given.
fn is_forced_by(axes: usize, key: &[u64], r: u64, from: [u64; 3], c: u64) -> bool
    requires { TreeKeys axes key.now × ValidKey axes r × (from ≡ filled 3 (anchors_of axes r)) }
    ensures { result ≡ forced_by axes key.now r c }
{
    let found = tree::find_node(axes, key, c);
    match found {
        Some(node) => {
            if !is_split(axes, key, node) {
                return false;
            }
            let end = tree::end_of(axes, key, node);
            split_among(axes, key, r, from, node, end)
        }
        None => false,
    }
}

// Whether cell r is stored and has a child.
fn is_split_cell(axes: usize, key: &[u64], r: u64) -> bool
    requires { TreeKeys axes key.now }
    ensures { result ≡ split axes key.now r }
{
    let found = tree::find_node(axes, key, r);
    match found {
        Some(node) => is_split(axes, key, node),
        None => false,
    }
}

// Whether cell r must be split: it is, or a cell under one of its neighbours forces it.
fn must_split(axes: usize, key: &[u64], r: u64) -> bool
    requires { TreeKeys axes key.now × ValidKey axes r }
    ensures { result ≡ must_split axes key.now r }
{
    if is_split_cell(axes, key, r) {
        return true;
    }
    let from = anchors::anchors_of(axes, r);
    let list = neighbours::list_neighbours(axes, r);
    let others = list.keys;
    let len = list.len;
    for i in 0..len {
        if is_forced_by(axes, key, r, from, others[i]) {
            return true;
        }
    }
    false
}

// The same, with the greatest level of any node: where none is two levels deeper than cell r, its neighbours force nothing.
fn is_to_split(axes: usize, key: &[u64], depth: u64, r: u64) -> bool
    requires { TreeKeys axes key.now × ValidKey axes r × (depth ≡ depth_of key.now) }
    ensures { result ≡ must_split axes key.now r }
{
    if depth <= r % 32768 + 1 {
        return is_split_cell(axes, key, r);
    }
    must_split(axes, key, r)
}

// The cell that comes after a cell and all below it: its next sibling, or that of the first cell above it that has one; 0 if none has.
fn next_after(axes: usize, k: u64) -> u64
    requires { ValidKey axes k }
    ensures { result ≡ next_after axes (level_of k) (code_of k) }
{
    let many: u64 = 1 << axes;
    let mut code = k / 32768;
    for level in (1..=k % 32768).rev() {
        if code % many + 1 < many {
            return (code + 1) * 32768 + level;
        }
        code = code >> axes;
    }
    0
}

// The cell after cell k in the balanced tree, or 0.
fn next_cell(axes: usize, key: &[u64], depth: u64, k: u64) -> u64
    requires { TreeKeys axes key.now × ValidKey axes k × (depth ≡ depth_of key.now) }
    ensures { (result ≡ next_cell axes key.now k) × ValidKey axes result }
{
    if is_to_split(axes, key, depth, k) {
        return keys::child_of(axes, k, 0);
    }
    next_after(axes, k)
}

// Writes the cells of the balanced tree into a slice of which the first `room` entries count. Answers how many there are, or one more than the room.
pub fn put_cells(axes: usize, key: &[u64], room: usize, out: &mut [u64]) -> usize
    requires { TreeKeys axes key.now × (room ≤ length out.old) × (room < 18446744073709551615) }
    ensures { Put axes key.now room result out.new }
{
    if room < 1 {
        return room + 1;
    }
    let depth = tree::depth_of(key);
    out[0] = 0;
    let mut n = 1;
    let mut k = next_cell(axes, key, depth, 0);
    while 0 < k {
        if room <= n {
            return room + 1;
        }
        out[n] = k;
        n += 1;
        k = next_cell(axes, key, depth, k);
    }
    n
}
