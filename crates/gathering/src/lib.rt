#![tactic(auto)]

// The keys of a salvage without repeats: for each valid row the cells from the root down, each looked for among the children of the one before it.
ghost use Rattle.std.specs.Prelude.{◌≡◌, ℕ, ◌≤◌, ◌<◌, length, get_or, set};
ghost use Rattle.morton.specs.Keys.{ValidKey, level_of};
ghost use Rattle.tree.specs.Nodes.{cell_at};
ghost use Rattle.gathering.specs.Links.{Linked, Below, Walkable, Searched, OneMore, Roomy, Stepped, PutAll};

// The child of node p with key k, or 0: from the last child back.
fn find_child(key: &[u64], child: &[usize], next: &[usize], p: usize, k: u64) -> usize
    requires { Walkable key.now child.now next.now p k }
    ensures { (d n : ℕ) → Linked d n key.now child.now next.now → Below d n key.now p k → Searched n key.now k result }
{
    let mut j = child[p];
    while 0 < j {
        if key[j] == k {
            return j;
        }
        j = next[j];
    }
    0
}

// Node n, with key k under node p.
fn put_node(key: &mut [u64], child: &mut [usize], next: &mut [usize], n: usize, p: usize, k: u64)
    requires { (p < n) × (n < length key.old) × (n < length child.old) × (n < length next.old) }
    ensures { OneMore n p k key.old child.old next.old key.new child.new next.new }
{
    key[n] = k;
    next[n] = child[p];
    child[n] = 0;
    child[p] = n;
}

// The number of cell k under its parent, node p; it is put there as node n if it is absent and there is room.
fn step_down(
    key: &mut [u64],
    child: &mut [usize],
    next: &mut [usize],
    room: usize,
    n: usize,
    p: usize,
    k: u64,
) -> usize
    requires { Walkable key.old child.old next.old p k × Roomy room n key.old child.old next.old × (p < n) }
    ensures { (d : ℕ) → Linked d n key.old child.old next.old → Below d n key.old p k → Stepped d room n key.old child.old next.old k key.new child.new next.new result }
{
    let c = find_child(key, child, next, p, k);
    if 0 < c {
        return c;
    }
    if room <= n {
        return n;
    }
    put_node(key, child, next, n, p, k);
    n
}

// The cell of level l that holds cell k.
fn cell_of_level(axes: usize, l: u64, k: u64) -> u64
    requires { ValidKey axes k × (l ≤ level_of k) }
    ensures { result ≡ cell_at axes l k }
{
    let shift = axes as u64 * (k % 32768 - l);
    ((k / 32768) >> shift) * 32768 + l
}

// Puts a valid key and its ancestors, from the root down. The number of nodes, one more than the room where there is none for one of them.
pub fn put_key(
    axes: usize,
    k: u64,
    key: &mut [u64],
    child: &mut [usize],
    next: &mut [usize],
    room: usize,
    nodes: usize,
) -> usize
    requires { ValidKey axes k × Linked axes nodes key.old child.old next.old × Roomy room nodes key.old child.old next.old }
    ensures { PutAll axes room nodes k key.old key.new child.new next.new result }
{
    let level = k % 32768;
    let mut n = nodes;
    let mut p = 0;
    for l in 0..level {
        let c = cell_of_level(axes, l + 1, k);
        p = step_down(key, child, next, room, n, p, c);
        if p == n {
            if room <= n {
                return room + 1;
            }
            n += 1;
        }
    }
    n
}
