#![tactic(auto)]

// One row handed in, judged with no room: each entry is found among the nodes and tested, and what they hold is added up. Document 02, orders 6 and 12.
ghost use Rattle.std.specs.Prelude.{◌≡◌, ◌+◌, ◌≤◌, ◌<◌, min, ltb, length, get_or};
ghost use Rattle.tree.specs.WellFormed.{SoundTree, most_sources};
ghost use Rattle.rows.specs.Lists.{in_u, in_v};
ghost use Rattle.list_rows.specs.Entries.{Counted, Table, Sought, takes, Cell, Node, rises_at};
ghost use Rattle.list_rows.specs.Rows.{too_many, Brings};

use morton::keys;

// How many cells the table of what was found has slots for.
const SLOTS: usize = 4096;

// A node's number and its place.
#[derive(Clone, Copy)]
pub struct Spot {
    pub node: usize,
    pub place: u64,
}

// A cell whose row is judged: its key, its place, and its parent's place.
#[derive(Clone, Copy)]
pub struct Row {
    pub cell: u64,
    pub place: u64,
    pub above: u64,
}

// The node with key k and its place. What was found last for its slot is tried first; a wrong number there costs time alone.
fn seek(
    axes: usize,
    key: &[u64],
    own: &[usize],
    nodes: &mut [usize],
    spots: &mut [u64],
    k: u64,
) -> Option<Spot>
    requires { SoundTree axes key.now own.now × Table axes key.now nodes.old spots.old }
    ensures found { Sought axes key.now k result }
    ensures table { Table axes key.now nodes.new spots.new }
{
    let slot = keys::slot_of::<SLOTS>(k);
    let tried = nodes[slot];
    if tried < key.len() {
        if key[tried] == k {
            return Some(Spot {
                node: tried,
                place: spots[slot],
            });
        }
    }
    let node = tree::find_node(axes, key, k)?;
    let place = places::place_of(axes, k);
    nodes[slot] = node;
    spots[slot] = place;
    Some(Spot { node, place })
}

// Whether a node's total is above 0.
fn is_sourced(total: &[usize], node: usize) -> bool
    requires { node < length total.now }
    ensures { result ≡ ltb 0 (get_or total.now node 0) }
{
    0 < total[node]
}

// Whether a node at a place stands in a cell's V row: on its level, beside its parent but not beside it, and sourced.
fn takes_far(
    axes: usize,
    key: &[u64],
    own: &[usize],
    total: &[usize],
    row: Row,
    node: usize,
    place: u64,
) -> bool
    requires { Counted axes key.now own.now total.now × Cell axes key.now row × Node axes key.now node place }
    ensures { result ≡ in_v axes key.now own.now row.cell (get_or key.now node 0) }
{
    if key[node] % 32768 != row.cell % 32768 {
        return false;
    }
    if !is_sourced(total, node) {
        return false;
    }
    if places::is_beside(row.place, place, 0) {
        return false;
    }
    places::is_beside(row.above, place, 1)
}

// Whether a node at a place stands in a leaf's U row: a leaf beside it at the coarser one's level, and sourced.
fn takes_near(
    axes: usize,
    key: &[u64],
    own: &[usize],
    total: &[usize],
    row: Row,
    node: usize,
    place: u64,
) -> bool
    requires { Counted axes key.now own.now total.now × Cell axes key.now row × Node axes key.now node place }
    ensures { result ≡ in_u axes key.now own.now row.cell (get_or key.now node 0) }
{
    if !tree::is_leaf(axes, key, node) {
        return false;
    }
    if !is_sourced(total, node) {
        return false;
    }
    let level = key[node] % 32768;
    let from = row.cell % 32768;
    if level < from {
        return places::is_beside(place, row.place, from - level);
    }
    places::is_beside(row.place, place, level - from)
}

// The same for either row.
fn is_taken(
    axes: usize,
    key: &[u64],
    own: &[usize],
    total: &[usize],
    far: bool,
    row: Row,
    node: usize,
    place: u64,
) -> bool
    requires { Counted axes key.now own.now total.now × Cell axes key.now row × Node axes key.now node place }
    ensures { result ≡ takes axes key.now own.now far row.cell (get_or key.now node 0) }
{
    if far {
        return takes_far(axes, key, own, total, row, node, place);
    }
    takes_near(axes, key, own, total, row, node, place)
}

// Whether an entry is above the one before it.
fn rises_at(flat: &[u64], i: usize) -> bool
    requires { i < length flat.now }
    ensures { result ≡ rises_at flat.now i }
{
    if i < 1 {
        return true;
    }
    flat[i - 1] < flat[i]
}

// A count, carried no farther than one more than the most sources of a tree.
pub fn held(count: usize) -> usize
    ensures { result ≡ min count too_many }
{
    count.min(1048577)
}

// A count with a node's total.
fn with_total(total: &[usize], node: usize, count: usize) -> usize
    requires { (node < length total.now) × (get_or total.now node 0 ≤ most_sources) × (count ≤ too_many) }
    ensures { result ≡ min (count + get_or total.now node 0) too_many }
{
    held(count + total[node])
}

// How many sources a row brings, if it can be the cell's.
pub fn row_sources(
    axes: usize,
    key: &[u64],
    own: &[usize],
    total: &[usize],
    nodes: &mut [usize],
    spots: &mut [u64],
    far: bool,
    row: Row,
    flat: &[u64],
) -> Option<usize>
    requires { Counted axes key.now own.now total.now × Table axes key.now nodes.old spots.old × Cell axes key.now row }
    ensures brings { Brings axes key.now own.now total.now far row.cell flat.now result }
    ensures table { Table axes key.now nodes.new spots.new }
{
    let mut sum: usize = 0;
    for i in 0..flat.len() {
        if !rises_at(flat, i) {
            return None;
        }
        let spot = seek(axes, key, own, nodes, spots, flat[i])?;
        if !is_taken(axes, key, own, total, far, row, spot.node, spot.place) {
            return None;
        }
        sum = with_total(total, spot.node, sum);
    }
    Some(sum)
}
