#![tactic(auto)]

// The descent of the U rows: the owners under a cell, child by child along the links, in the order of nodes.
ghost use Rattle.std.specs.Prelude.{◌≡◌, ◌&&◌, ◌+◌, ◌-◌, ◌≤◌, leb, length, take};
ghost use Rattle.sourced.specs.Room.{PutsThose};
ghost use Rattle.links.specs.Links.{LinkedTree};
ghost use Rattle.descent.specs.Steps.{OwnedTree, Parent, Siblings, Parents};
ghost use Rattle.descent.specs.Owners.{owns_under, owns_within, owns_below};

// So many nodes at most are read one after the other, without steps.
const FEW: usize = 256;

// Whether so many nodes are few, and as many keys have room after n.
fn are_few(nodes: usize, n: usize, room: usize) -> bool
    ensures { result ≡ (leb nodes 256 && leb (n + nodes) room) }
{
    if FEW < nodes {
        return false;
    }
    if room < n {
        return false;
    }
    nodes <= room - n
}

// Puts the keys of the owners from one number up to another, where there is room for all nodes: each key is stored, and the next one takes its place unless its node owns sources.
fn store_owners(
    key: &[u64],
    own: &[usize],
    from: usize,
    to: usize,
    out: &mut [u64],
    n: usize,
) -> usize
    requires { OwnedTree key.now own.now × (from ≤ to) × (to ≤ length key.now) × (n + (to - from) ≤ length out.old) }
    ensures { PutsThose key.now (owns_within key.now own.now from to) out.old n out.new result }
{
    let mut m = n;
    for c in from..to {
        out[m] = key[c];
        if 0 < own[c] {
            m += 1;
        }
    }
    m
}

// The cell step: puts the keys of the owners under a node that has children, with so many levels below its own. Few nodes are read one after the other.
#[cycle(cell_step_children_step)]
fn cell_step(
    axes: usize,
    key: &[u64],
    own: &[usize],
    total: &[usize],
    links: &[usize],
    node: usize,
    left: usize,
    out: &mut [u64],
    n: usize,
) -> usize
    requires { LinkedTree axes key.now own.now total.now links.now × Parent key.now node left }
    ensures { PutsThose key.now (owns_under axes key.now own.now node) out.old n out.new result }
{
    let to = links::next_of(axes, key, total, links, node);
    if are_few(to - node, n, out.len()) {
        return store_owners(key, own, node, to, out, n);
    }
    let from = links::first_sourced_child(axes, key, total, links, node);
    children_step(axes, key, own, total, links, from, to, left - 1, out, n)
}

// The children step: of the sourced children of a cell from one number up to another the leaves are put, the others go to the cell step.
#[cycle(cell_step_children_step)]
fn children_step(
    axes: usize,
    key: &[u64],
    own: &[usize],
    total: &[usize],
    links: &[usize],
    from: usize,
    to: usize,
    left: usize,
    out: &mut [u64],
    n: usize,
) -> usize
    requires { LinkedTree axes key.now own.now total.now links.now × Siblings axes key.now own.now total.now from to left }
    ensures { PutsThose key.now (owns_within key.now own.now from to) out.old n out.new result }
{
    let mut m = n;
    let mut c = from;
    while c < to {
        if links::has_children(key, c) {
            m = cell_step(axes, key, own, total, links, c, left, out, m);
            c = links::next_of(axes, key, total, links, c);
        } else {
            m = sourced::put(out, m, key[c]);
            c = links::next_of(axes, key, total, links, c);
        }
    }
    m
}

// The cell step for each of the first c nodes.
fn put_under(
    axes: usize,
    key: &[u64],
    own: &[usize],
    total: &[usize],
    links: &[usize],
    nodes: &[usize],
    c: usize,
    left: usize,
    out: &mut [u64],
    n: usize,
) -> usize
    requires { LinkedTree axes key.now own.now total.now links.now × Parents key.now nodes.now c left }
    ensures { PutsThose key.now (owns_below axes key.now own.now (take c nodes.now)) out.old n out.new result }
{
    let mut m = n;
    for j in 0..c {
        m = cell_step(axes, key, own, total, links, nodes[j], left, out, m);
    }
    m
}

// Puts the keys of the owners under the first c nodes, which have children. Where they do not ascend and have as much room past them, they are dealt by level, so that little is left to sort.
pub fn put_deeper(
    axes: usize,
    key: &[u64],
    own: &[usize],
    total: &[usize],
    links: &[usize],
    nodes: &[usize],
    c: usize,
    left: usize,
    out: &mut [u64],
    n: usize,
) -> usize
    requires { LinkedTree axes key.now own.now total.now links.now × Parents key.now nodes.now c left }
    ensures { PutsThose key.now (owns_below axes key.now own.now (take c nodes.now)) out.old n out.new result }
{
    let m = put_under(axes, key, own, total, links, nodes, c, left, out, n);
    if n < m && m <= out.len() && m - n <= out.len() - m {
        if !slices::is_ascending(&out[n..m]) {
            dealing::deal_by_level(out, n, m - n);
        }
    }
    m
}
