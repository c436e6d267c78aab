#![tactic(auto)]

// Where the walk along a tree's sourced nodes goes on after a node: read from a column of links if it has children, else found among the nodes that follow.
ghost use Rattle.std.specs.Prelude.{◌≡◌, true, false, ◌&&◌, suc, ◌≤◌, ◌<◌, leb, ltb, length};
ghost use Rattle.morton.specs.Keys.{level_of};
ghost use Rattle.links.specs.Links.{next_of, inner, after_of, Linked, From, Links, Walkable};

// Whether a walk that hops from a node of a level stops at the one with key k, whose total is n.
fn stops(level: u64, k: u64, n: usize) -> bool
    ensures { result ≡ (leb (level_of k) level && ltb 0 n) }
{
    if level < k % 32768 {
        return false;
    }
    0 < n
}

// Whether node i has children.
pub fn has_children(key: &[u64], i: usize) -> bool
    requires { i < length key.now }
    ensures { result ≡ inner key.now i }
{
    let next = i + 1;
    if key.len() <= next {
        return false;
    }
    key[i] % 32768 < key[next] % 32768
}

// Where node i's walk goes on, where it has children: by hops along the links of later nodes, and past each leaf to the node after it.
fn find_next(key: &[u64], total: &[usize], links: &[usize], i: usize) -> usize
    requires { From key.now total.now links.now (suc i) × (i < length key.now) }
    ensures { result ≡ next_of key.now total.now i }
{
    let level = key[i] % 32768;
    let mut j = i + 1;
    // Kept as a while: a link hops past many nodes, and the place where it stops is the answer.
    while j < key.len() {
        if stops(level, key[j], total[j]) {
            return j;
        }
        if has_children(key, j) {
            j = links[j];
        } else {
            j += 1;
        }
    }
    j
}

// The links of all nodes with children, from the last back. What stands at a leaf stays.
pub fn link_nodes(key: &[u64], total: &[usize], links: &mut [usize])
    requires { Linked key.now total.now × (length key.now ≤ length links.old) }
    ensures { Links key.now total.now links.old links.new }
{
    for i in (0..key.len()).rev() {
        if has_children(key, i) {
            let next = find_next(key, total, links, i);
            links[i] = next;
        }
    }
}

// Where the walk goes on after leaf i: the first sourced node that follows. An empty one with children is passed by its link.
fn past_leaf(axes: usize, key: &[u64], total: &[usize], links: &[usize], i: usize) -> usize
    requires { Walkable axes key.now total.now links.now × (i < length key.now) × (inner key.now i ≡ false) }
    ensures { result ≡ next_of key.now total.now i }
{
    let mut j = i + 1;
    // Kept as a while: a link hops past many nodes, and the place where it stops is the answer.
    while j < key.len() {
        if 0 < total[j] {
            return j;
        }
        if has_children(key, j) {
            j = links[j];
        } else {
            j += 1;
        }
    }
    j
}

// Where node i's walk goes on: the first sourced node after all that lies under it, or the number of nodes.
pub fn next_of(axes: usize, key: &[u64], total: &[usize], links: &[usize], i: usize) -> usize
    requires { Walkable axes key.now total.now links.now × (i < length key.now) }
    ensures { result ≡ next_of key.now total.now i }
{
    if has_children(key, i) {
        return links[i];
    }
    let next = i + 1;
    if next < key.len() {
        if 0 < total[next] {
            return next;
        }
    }
    past_leaf(axes, key, total, links, i)
}

// Where the walk along the children of node i begins: its first sourced child, if it has one.
pub fn first_sourced_child(
    axes: usize,
    key: &[u64],
    total: &[usize],
    links: &[usize],
    i: usize,
) -> usize
    requires { Walkable axes key.now total.now links.now × (suc i < length key.now) }
    ensures { result ≡ after_of key.now total.now i }
{
    let c = i + 1;
    if 0 < total[c] {
        return c;
    }
    next_of(axes, key, total, links, c)
}
