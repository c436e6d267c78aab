#![tactic(auto)]

// What lies around a cell, gathered once for all its children, and what each child takes of it.
ghost use Rattle.std.specs.Prelude.{◌≡◌, true, ◌++◌, ◌+◌, ◌≤◌, ◌<◌, length, take};
ghost use Rattle.morton.specs.Keys.{ValidKey};
ghost use Rattle.links.specs.Links.{inner, sourced_children, LinkedTree};
ghost use Rattle.places.specs.Places.{place_of};
ghost use Rattle.around.specs.Masks.{Beneath, MaskOf};
ghost use Rattle.around.specs.Around.{nodes_in, EntriesIn, FrameIn, NearListed, Beside};
ghost use Rattle.around.specs.Parting.{Parting, Parts, Storable, Stored, Positions, Splits};

use axes::Three;

// The most nodes near a cell, itself among them.
pub const NEAR_ROOM: usize = Three::NEIGHBOURS + 1;

// The most nodes around a cell: near one of its children, or in that child's V row.
pub const AROUND_ROOM: usize = Three::V_ROOM + NEAR_ROOM;

// A frame is one slice: after the numbers of so many nodes stand their places, then their masks.
pub const PLACES: usize = AROUND_ROOM;

pub const MASKS: usize = 2 * AROUND_ROOM;

pub const FRAME_ROOM: usize = 3 * AROUND_ROOM;

const AXIS: u64 = 1048576;

const TWO_AXES: u64 = 1099511627776;

// 2 on each axis.
const TWOS: u64 = 2199025352706;

// For each axis the masks of the six offsets, a byte each, the first one lowest.
const FIRST: u64 = 0x00AA_FFFF_5500;

const SECOND: u64 = 0x00CC_FFFF_3300;

const THIRD: u64 = 0x00F0_FFFF_0F00;

// Which children of a cell a node one level below it touches. On each axis the node lies at one of six offsets, counted from two before the cell's first child.
pub fn touch_mask(place: u64, spot: u64) -> u64
    requires { Beneath place spot }
    ensures { MaskOf place spot result }
{
    let g = place + TWOS - 2 * spot;
    let x = FIRST >> (8 * (g % AXIS));
    let y = SECOND >> (8 * (g / AXIS % AXIS));
    let z = THIRD >> (8 * (g / TWO_AXES));
    x & y & z & 255
}

// Puts the entries of a node's sourced children, for the cell with the place `spot`; the node is near that cell and has children, and `up` is its place.
pub fn put_children(
    axes: usize,
    key: &[u64],
    own: &[usize],
    total: &[usize],
    links: &[usize],
    node: usize,
    up: u64,
    spot: u64,
    frame: &mut [usize],
    n: usize,
) -> usize
    requires linked_tree { LinkedTree axes key.now own.now total.now links.now × Beside axes key.now node up spot × (inner key.now node ≡ true) }
    requires entries_in { EntriesIn axes key.now spot (take n (nodes_in frame.old)) frame.old n }
    requires in_bounds { (648 ≤ length frame.old) × (n + length (sourced_children axes key.now own.now node) ≤ 216) }
    ensures { EntriesIn axes key.now spot (take n (nodes_in frame.old) ++ sourced_children axes key.now own.now node) frame.new result }
{
    let end = links::next_of(axes, key, total, links, node);
    let mut m = n;
    let mut j = links::first_sourced_child(axes, key, total, links, node);
    while j < end {
        let place = places::place_below(axes, up, key[j] / 32768);
        frame[m] = j;
        frame[PLACES + m] = place as usize;
        frame[MASKS + m] = touch_mask(place, spot) as usize;
        m += 1;
        j = links::next_of(axes, key, total, links, j);
    }
    m
}

// Gathers all that is around the cell p, whose place is `spot`: the sourced children of the nodes near it. Listed are those with children.
pub fn around_of(
    axes: usize,
    key: &[u64],
    own: &[usize],
    total: &[usize],
    links: &[usize],
    p: u64,
    spot: u64,
    listed: &[usize],
    spots: &[u64],
    c: usize,
    frame: &mut [usize],
) -> usize
    requires linked_tree { LinkedTree axes key.now own.now total.now links.now × ValidKey axes p × (spot ≡ place_of axes p) × NearListed axes key.now own.now p listed.now spots.now c }
    requires in_bounds { 648 ≤ length frame.old }
    ensures { FrameIn axes key.now own.now p frame.new result }
{
    let mut m: usize = 0;
    for i in 0..c {
        m = put_children(
            axes, key, own, total, links, listed[i], spots[i], spot, frame, m,
        );
    }
    m
}

// How far the keys of the far entries reach, and how many entries are near.
#[derive(Clone, Copy)]
pub struct Parted {
    pub far: usize,
    pub near: usize,
}

// Parts one entry for child s: its key and its position are stored, and one of them counts; the next takes the place of the other.
fn store_part(
    key: &[u64],
    nodes: &[usize],
    masks: &[usize],
    j: usize,
    s: u64,
    far: &mut [u64],
    m: usize,
    near: &mut [usize],
    t: usize,
) -> Parted
    requires { Storable key.now nodes.now masks.now s j far.old m near.old t }
    ensures { Stored key.now nodes.now masks.now s j far.old m far.new result.far near.old t near.new result.near }
{
    let bit = (masks[j] >> s) % 2;
    far[m] = key[nodes[j]];
    near[t] = j;
    Parted {
        far: m + (1 - bit),
        near: t + bit,
    }
}

// Parts the entries around a cell for its child s, where there is room for all of them, four in a turn while there are four.
fn store_parts(
    key: &[u64],
    nodes: &[usize],
    masks: &[usize],
    c: usize,
    s: u64,
    far: &mut [u64],
    f: usize,
    near: &mut [usize],
) -> Parted
    requires { Parting key.now nodes.now masks.now c s × (f + c ≤ length far.old) × (28 ≤ length near.old) }
    ensures { Parts key.now nodes.now masks.now c s far.old f far.new result.far near.new result.near }
{
    let mut m = f;
    let mut t: usize = 0;
    let mut j: usize = 0;
    // Kept as a while: a turn takes four entries or one, so a for would need a second loop.
    while j < c {
        let one = store_part(key, nodes, masks, j, s, far, m, near, t);
        j += 1;
        if 2 < c - j {
            let two = store_part(key, nodes, masks, j, s, far, one.far, near, one.near);
            j += 1;
            let three = store_part(key, nodes, masks, j, s, far, two.far, near, two.near);
            j += 1;
            let four = store_part(key, nodes, masks, j, s, far, three.far, near, three.near);
            j += 1;
            m = four.far;
            t = four.near;
        } else {
            m = one.far;
            t = one.near;
        }
    }
    Parted { far: m, near: t }
}

// The same into whatever room there is for the far keys.
fn try_parts(
    key: &[u64],
    nodes: &[usize],
    masks: &[usize],
    c: usize,
    s: u64,
    far: &mut [u64],
    f: usize,
    near: &mut [usize],
) -> Parted
    requires { Parting key.now nodes.now masks.now c s × (28 ≤ length near.old) }
    ensures { Parts key.now nodes.now masks.now c s far.old f far.new result.far near.new result.near }
{
    let mut m = f;
    let mut t: usize = 0;
    for j in 0..c {
        if (masks[j] >> s) % 2 == 1 {
            near[t] = j;
            t += 1;
        } else {
            m = sourced::put(far, m, key[nodes[j]]);
        }
    }
    Parted { far: m, near: t }
}

// Parts the entries around a cell for its child s: puts the keys of those that do not touch it, and the positions of the others.
pub fn part(
    key: &[u64],
    nodes: &[usize],
    masks: &[usize],
    c: usize,
    s: u64,
    far: &mut [u64],
    f: usize,
    near: &mut [usize],
) -> Parted
    requires { Parting key.now nodes.now masks.now c s × (28 ≤ length near.old) }
    ensures { Parts key.now nodes.now masks.now c s far.old f far.new result.far near.new result.near }
{
    if f < far.len() {
        if c <= far.len() - f {
            return store_parts(key, nodes, masks, c, s, far, f, near);
        }
    }
    try_parts(key, nodes, masks, c, s, far, f, near)
}

// How far the keys of the owners reach, and how many nodes have children.
#[derive(Clone, Copy)]
pub struct Split {
    pub owners: usize,
    pub inner: usize,
}

// Of the near entries, puts the keys of the nodes without children, and the numbers and places of those with children.
pub fn split_near(
    key: &[u64],
    nodes: &[usize],
    places: &[usize],
    near: &[usize],
    t: usize,
    owners: &mut [u64],
    o: usize,
    inner: &mut [usize],
    spots: &mut [u64],
) -> Split
    requires positions { Positions key.now nodes.now places.now near.now t }
    requires in_bounds { (27 ≤ length inner.old) × (27 ≤ length spots.old) }
    ensures { Splits key.now nodes.now places.now (take t near.now)
        owners.old o owners.new result.owners inner.new spots.new result.inner }
{
    let mut m = o;
    let mut k: usize = 0;
    for i in 0..t {
        let at = near[i];
        let node = nodes[at];
        if links::has_children(key, node) {
            inner[k] = node;
            spots[k] = places[at] as u64;
            k += 1;
        } else {
            m = sourced::put(owners, m, key[node]);
        }
    }
    Split {
        owners: m,
        inner: k,
    }
}
