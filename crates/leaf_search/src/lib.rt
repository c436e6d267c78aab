#![tactic(auto)]

// The leaf that holds a code, from a node's number: that node, if it is the leaf; else by a search, from there where that may be.
ghost use Rattle.std.specs.Prelude.{◌≡◌, ◌-◌, ◌<◌, ◌≤◌, true, length, nat_le, slice_index, Some};
ghost use Rattle.morton.specs.Keys.{axes_known, level_of, above};
ghost use Rattle.tree.specs.Order.{first};
ghost use Rattle.tree.specs.Leaves.{leaf_of};
ghost use Rattle.tree.specs.Finding.{TreeKeys};
ghost use Rattle.leaf_search.specs.Search.{leaf_holds, LastNode, Between};

// The cell of a level-16 code at the level of node k, as a code.
fn up_to(axes: usize, k: u64, code: u64) -> u64
    requires { (axes_known axes ≡ true) × (level_of k ≤ 16) }
    ensures { result ≡ above axes (16 - level_of k) code }
{
    code >> (axes as u64 * (16 - k % 32768))
}

// Whether a node's first level-16 code is at most one.
fn begins_by(axes: usize, k: u64, code: u64) -> bool
    requires { (axes_known axes ≡ true) × (level_of k ≤ 16) }
    ensures { result ≡ nat_le (first axes k) code }
{
    k / 32768 <= up_to(axes, k, code)
}

// The last node from `from` up to `end` that begins by a code, by halving.
fn last_between(axes: usize, key: &[u64], from: usize, end: usize, code: u64) -> usize
    requires { TreeKeys axes key.now × Between axes key.now code from end }
    ensures { LastNode axes key.now code result }
{
    let mut low = from;
    let mut high = end;
    while low + 1 < high {
        let middle = low + (high - low) / 2;
        if begins_by(axes, key[middle], code) {
            low = middle;
        } else {
            high = middle;
        }
    }
    low
}

// The last node that begins by a code, from one that does: by steps of double length, and then within the last step.
fn gallop(axes: usize, key: &[u64], from: usize, code: u64) -> usize
    requires { TreeKeys axes key.now × (from < length key.now) × (first axes (slice_index key.now from) ≤ code) }
    ensures { LastNode axes key.now code result }
{
    let mut low = from;
    let mut step = 1;
    while step < key.len() - low {
        let next = low + step;
        if !begins_by(axes, key[next], code) {
            return last_between(axes, key, low, next, code);
        }
        low = next;
        step += step;
    }
    last_between(axes, key, low, key.len(), code)
}

// Whether a search may go from a number: from that of a node that begins by the code. 0 is no hint.
fn may_start(axes: usize, key: &[u64], hint: usize, code: u64) -> bool
    requires { TreeKeys axes key.now }
    ensures { result ≡ true → (hint < length key.now) × (first axes (slice_index key.now hint) ≤ code) }
{
    if hint < 1 {
        return false;
    }
    if key.len() <= hint {
        return false;
    }
    begins_by(axes, key[hint], code)
}

// The last node that begins by a code, from any number; soonest from that of a node at or close before it.
fn last_from(axes: usize, key: &[u64], hint: usize, code: u64) -> usize
    requires { TreeKeys axes key.now }
    ensures { LastNode axes key.now code result }
{
    if may_start(axes, key, hint, code) {
        return gallop(axes, key, hint, code);
    }
    last_between(axes, key, 0, key.len(), code)
}

// Whether a node is a leaf that holds a code.
fn leaf_holds(axes: usize, key: &[u64], node: usize, code: u64) -> bool
    requires { TreeKeys axes key.now × (node < length key.now) }
    ensures { result ≡ leaf_holds axes key.now code node }
{
    let k = key[node];
    if up_to(axes, k, code) != k / 32768 {
        return false;
    }
    tree::is_leaf(axes, key, node)
}

// Whether there is such a node and it is a leaf that holds a code.
fn is_leaf_of(axes: usize, key: &[u64], node: usize, code: u64) -> bool
    requires { TreeKeys axes key.now }
    ensures { result ≡ true → Some node ≡ leaf_of axes key.now code }
{
    if key.len() <= node {
        return false;
    }
    leaf_holds(axes, key, node, code)
}

// The leaf that holds a code, by a search from any number.
pub fn leaf_by_search(axes: usize, key: &[u64], hint: usize, code: u64) -> Option<usize>
    requires { TreeKeys axes key.now }
    ensures { result ≡ leaf_of axes key.now code }
{
    let node = last_from(axes, key, hint, code);
    if leaf_holds(axes, key, node, code) {
        return Some(node);
    }
    None
}

// The same; soonest if it is the node of that number, or the next.
pub fn leaf_from(axes: usize, key: &[u64], hint: usize, code: u64) -> Option<usize>
    requires { TreeKeys axes key.now }
    ensures { result ≡ leaf_of axes key.now code }
{
    if is_leaf_of(axes, key, hint, code) {
        return Some(hint);
    }
    let next = std::num::wrapping_add_usize(hint, 1);
    if is_leaf_of(axes, key, next, code) {
        return Some(next);
    }
    leaf_by_search(axes, key, hint, code)
}
