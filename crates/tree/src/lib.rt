#![tactic(auto)]

// What a tree is: its columns in Z order, when they are well formed, the depth, finding a node, and the sources of a leaf and of any cell.
ghost use Rattle.std.specs.Prelude.{◌≡◌, true, ◌&&◌, ℕ, ◌+◌, ◌≤◌, ◌<◌, length, get_or, replicate};
ghost use Rattle.morton.specs.Keys.{axes_known, above, under};
ghost use Rattle.tree.specs.Columns.{node_room};
ghost use Rattle.tree.specs.Nodes.{leaf};
ghost use Rattle.tree.specs.Order.{before, depth_of, end_of};
ghost use Rattle.tree.specs.WellFormed.{well_formed};
ghost use Rattle.tree.specs.Pass.{follows, may_own, rows_right, Rooted, Rowed};
ghost use Rattle.tree.specs.Finding.{TreeKeys, FirstFrom, FoundNode};
ghost use Rattle.tree.specs.Sources.{leaf_sources, cell_sources};

pub const MOST_SOURCES: usize = 1048576;

pub const MOST_NODES: usize = 1048576;

// The code n levels up; far above a cell there is only code 0.
fn up(axes: usize, code: u64, n: u64) -> u64
    requires { (axes ≤ 3) × (n < 32768) }
    ensures { result ≡ above axes n code }
{
    let shift = axes as u64 * n;
    if 63 < shift {
        return 0;
    }
    code >> shift
}

// Whether node a has a lower number than node b: compared at the coarser level, then by level.
pub fn comes_before(axes: usize, a: u64, b: u64) -> bool
    requires { axes_known axes ≡ true }
    ensures { result ≡ before axes a b }
{
    let level_a = a % 32768;
    let level_b = b % 32768;
    let code_a = a / 32768;
    let code_b = b / 32768;
    if level_a < level_b {
        return code_a <= up(axes, code_b, level_b - level_a);
    }
    up(axes, code_a, level_a - level_b) < code_b
}

// Whether key k may stand in the row after key p.
pub fn may_follow(axes: usize, p: u64, k: u64) -> bool
    requires { axes_known axes ≡ true }
    ensures { result ≡ follows axes p k }
{
    let level = k % 32768;
    if level < 1 {
        return false;
    }
    if 16 < level {
        return false;
    }
    let level_p = p % 32768;
    if level_p + 1 < level {
        return false;
    }
    let above = level_p + 1 - level;
    let holder = up(axes, p / 32768, above);
    let parent = up(axes, k / 32768, 1);
    if holder != parent {
        return false;
    }
    comes_before(axes, p, k)
}

// Whether the node with key p may own n sources, with key k in the next row.
pub fn may_own(p: u64, k: u64, n: usize) -> bool
    ensures { result ≡ may_own p k n }
{
    if p % 32768 < k % 32768 {
        return n == 0;
    }
    true
}

// Whether the rows after the root's are right but for the totals: one pass, each row against the one before it.
fn rows_right(axes: usize, key: &[u64], own: &[usize], begin: &[usize]) -> bool
    requires { Rooted axes key.now own.now begin.now }
    ensures { result ≡ rows_right axes key.now own.now begin.now }
{
    let mut run = 0;
    for i in 1..key.len() {
        let p = key[i - 1];
        let k = key[i];
        if !may_follow(axes, p, k) {
            return false;
        }
        if !may_own(p, k, own[i - 1]) {
            return false;
        }
        if begin[i] != run {
            return false;
        }
        let count = own[i];
        if MOST_SOURCES - run < count {
            return false;
        }
        run += count;
    }
    true
}

// Whether the totals are right where all else is: one pass from the last row back, with the sums that wait for a parent, one for each level.
fn totals_right(axes: usize, key: &[u64], own: &[usize], begin: &[usize], total: &[usize]) -> bool
    requires { Rowed axes key.now own.now begin.now total.now }
    ensures { result ≡ well_formed axes key.now own.now begin.now total.now }
{
    let mut waiting = [0usize; 18];
    for i in (0..key.len()).rev() {
        let level = (key[i] % 32768) as usize;
        let sum = own[i] + waiting[level + 1];
        if total[i] != sum {
            return false;
        }
        waiting[level + 1] = 0;
        waiting[level] += sum;
    }
    true
}

// Whether any four columns are a well-formed tree over 1 to 3 axes: their lengths, the root's row, the others, and the totals.
pub fn is_well_formed(
    axes: usize,
    key: &[u64],
    own: &[usize],
    begin: &[usize],
    total: &[usize],
) -> bool
    ensures { result ≡ (axes_known axes && well_formed axes key.now own.now begin.now total.now) }
{
    if !axes::axes_known(axes) {
        return false;
    }
    if own.len() != key.len() {
        return false;
    }
    if begin.len() != key.len() {
        return false;
    }
    if total.len() != key.len() {
        return false;
    }
    if key.len() < 1 {
        return false;
    }
    if key[0] != 0 {
        return false;
    }
    if own[0] != 0 {
        return false;
    }
    if begin[0] != 0 {
        return false;
    }
    if !rows_right(axes, key, own, begin) {
        return false;
    }
    totals_right(axes, key, own, begin, total)
}

// The depth: the greatest level, at least 1.
pub fn depth_of(key: &[u64]) -> u64
    ensures { result ≡ depth_of key.now }
{
    let mut depth: u64 = 1;
    for k in key {
        depth = depth.max(*k % 32768);
    }
    depth
}

// Whether a node is a leaf: by the next row.
pub fn is_leaf(axes: usize, key: &[u64], node: usize) -> bool
    requires { TreeKeys axes key.now × (node < length key.now) }
    ensures { result ≡ leaf axes key.now (get_or key.now node 0) }
{
    if node < 1 {
        return false;
    }
    let next = node + 1;
    if key.len() <= next {
        return true;
    }
    key[next] % 32768 <= key[node] % 32768
}

// Whether cell b is cell a or lies in it.
fn holds(axes: usize, a: u64, b: u64) -> bool
    requires { axes_known axes ≡ true }
    ensures { result ≡ under axes a b }
{
    let level_a = a % 32768;
    let level_b = b % 32768;
    if level_b < level_a {
        return false;
    }
    up(axes, b / 32768, level_b - level_a) == a / 32768
}

// A number between two: half way, but no farther past the lower one than that is past a node, and one more.
fn between(node: usize, low: usize, high: usize) -> usize
    requires { (node ≤ low) × (low + 1 < high) }
    ensures { (low < result) × (result < high) }
{
    let half = (high - low) / 2;
    let step = low - node + 1;
    low + step.min(half)
}

// The number after those of the nodes under a node, by steps that double until one is past it, and then by halving.
pub fn end_of(axes: usize, key: &[u64], node: usize) -> usize
    requires { TreeKeys axes key.now × (node < length key.now) }
    ensures { result ≡ end_of key.now node }
{
    let cell = key[node];
    let mut low = node;
    let mut high = key.len();
    while low + 1 < high {
        let middle = between(node, low, high);
        if holds(axes, cell, key[middle]) {
            low = middle;
        } else {
            high = middle;
        }
    }
    low + 1
}

// The number of the first node that does not come before k, by halving.
pub fn first_from(axes: usize, key: &[u64], k: u64) -> usize
    requires { axes_known axes ≡ true }
    ensures { FirstFrom axes key.now k result }
{
    let mut low = 0;
    let mut high = key.len();
    while low < high {
        let middle = low + (high - low) / 2;
        if comes_before(axes, key[middle], k) {
            low = middle + 1;
        } else {
            high = middle;
        }
    }
    low
}

// The node with key k.
pub fn find_node(axes: usize, key: &[u64], k: u64) -> Option<usize>
    requires { axes_known axes ≡ true }
    ensures { FoundNode axes key.now k result }
{
    let node = first_from(axes, key, k);
    if key.len() <= node {
        return None;
    }
    if key[node] != k {
        return None;
    }
    Some(node)
}

// A leaf's part of the order column: what it owns, from its begin on. `begin + own` may be past the largest number, so the room is compared instead.
pub fn leaf_sources<'a>(
    own: &[usize],
    begin: &[usize],
    order: &'a [usize],
    node: usize,
) -> &'a [usize]
    ensures { result.now ≡ leaf_sources own.now begin.now order.now node }
{
    if own.len() <= node {
        return &order[..0];
    }
    if begin.len() <= node {
        return &order[..0];
    }
    let count = own[node];
    let start = begin[node];
    if order.len() < start {
        return &order[..0];
    }
    if order.len() - start < count {
        return &order[..0];
    }
    let end = start + count;
    &order[start..end]
}

// Any cell's part of the order column: its total from its begin on.
pub fn cell_sources<'a>(
    total: &[usize],
    begin: &[usize],
    order: &'a [usize],
    node: usize,
) -> &'a [usize]
    ensures { result.now ≡ cell_sources total.now begin.now order.now node }
{
    leaf_sources(total, begin, order, node)
}

// How many entries of the node columns count: as many as the shortest has, and no more than a tree may have nodes.
pub fn node_room(key: usize, own: usize, begin: usize, total: usize) -> usize
    ensures { result ≡ node_room key own begin total }
{
    MOST_NODES.min(key).min(own).min(begin).min(total)
}

// Clears the columns beside the keys.
pub fn clear_columns(own: &mut [usize], begin: &mut [usize], total: &mut [usize])
    ensures own_after { own.new ≡ replicate (length own.old) 0 }
    ensures begin_after { begin.new ≡ replicate (length begin.old) 0 }
    ensures total_after { total.new ≡ replicate (length total.old) 0 }
{
    slices::clear_usize(own);
    slices::clear_usize(begin);
    slices::clear_usize(total);
}
