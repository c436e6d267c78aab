#![tactic(auto)]

// One row of the lists of a tree file, judged where it stands: document 02, order 6. Each entry is found among the nodes and tested, as `list_rows` does of slices, by the same laws.
ghost use Rattle.std.specs.Prelude.{◌≡◌, true, ◌≤◌, ◌<◌, length, get_or};
ghost use Rattle.tree.specs.Nodes.{leaf};
ghost use Rattle.tree.specs.Finding.{TreeKeys, FirstFrom, FoundNode};
ghost use Rattle.tree.specs.WellFormed.{SoundTree};
ghost use Rattle.rows.specs.Lists.{in_u, in_v};
ghost use Rattle.list_rows.specs.Entries.{Counted, Sought, takes, Cell, Node, rises_at};
ghost use Rattle.list_rows.specs.Rows.{Brings};
ghost use Rattle.tree_file.specs.Trailer.{width_of, column_in};
ghost use Rattle.file_columns.specs.Columns.{Sectioned};
ghost use Rattle.file_rows.specs.Parts.{part};

use file_columns::{count_of, key_of, number_of};
use file_sections::Sections;
use list_rows::{Row, Spot};

// Whether a node is a leaf: by the next row.
pub fn is_leaf(file: &[u8], s: Sections, node: usize) -> bool
    requires { Sectioned file.now s × TreeKeys s.axes (column_in file.now 1) × (node < length (column_in file.now 1)) }
    ensures { result ≡ leaf s.axes (column_in file.now 1) (get_or (column_in file.now 1) node 0) }
{
    if node < 1 {
        return false;
    }
    let n = count_of(file, s, 1);
    let next = node + 1;
    if n <= next {
        return true;
    }
    let below = key_of(file, s, 1, next);
    let here = key_of(file, s, 1, node);
    below % 32768 <= here % 32768
}

// The number of the first node that does not come before k, by halving.
fn first_from(file: &[u8], s: Sections, k: u64) -> usize
    requires { Sectioned file.now s }
    ensures { FirstFrom s.axes (column_in file.now 1) k result }
{
    let axes = s.axes;
    let mut low = 0;
    let mut high = count_of(file, s, 1);
    while low < high {
        let middle = low + (high - low) / 2;
        let here = key_of(file, s, 1, middle);
        if tree::comes_before(axes, here, k) {
            low = middle + 1;
        } else {
            high = middle;
        }
    }
    low
}

// The node with key k.
fn find_node(file: &[u8], s: Sections, k: u64) -> Option<usize>
    requires { Sectioned file.now s }
    ensures { FoundNode s.axes (column_in file.now 1) k result }
{
    let node = first_from(file, s, k);
    if count_of(file, s, 1) <= node {
        return None;
    }
    let here = key_of(file, s, 1, node);
    if here != k {
        return None;
    }
    Some(node)
}

// The node with key k and its place.
fn seek(file: &[u8], s: Sections, k: u64) -> Option<Spot>
    requires { Sectioned file.now s × Counted s.axes (column_in file.now 1) (column_in file.now 2) (column_in file.now 4) }
    ensures { Sought s.axes (column_in file.now 1) k result }
{
    let node = find_node(file, s, k)?;
    let place = places::place_of(s.axes, k);
    Some(Spot { node, place })
}

// Whether a node at a place stands in a cell's V row: on its level, beside its parent but not beside it, and sourced.
fn takes_far(file: &[u8], s: Sections, row: Row, node: usize, place: u64) -> bool
    requires sectioned { Sectioned file.now s }
    requires counted { Counted s.axes (column_in file.now 1) (column_in file.now 2) (column_in file.now 4) × Cell s.axes (column_in file.now 1) row
        × Node s.axes (column_in file.now 1) node place }
    ensures { result ≡ in_v s.axes (column_in file.now 1) (column_in file.now 2) row.cell (get_or (column_in file.now 1) node 0) }
{
    let here = key_of(file, s, 1, node);
    if here % 32768 != row.cell % 32768 {
        return false;
    }
    let total = number_of(file, s, 4, node);
    if total < 1 {
        return false;
    }
    if places::is_beside(row.place, place, 0) {
        return false;
    }
    places::is_beside(row.above, place, 1)
}

// Whether a node at a place stands in a leaf's U row: a leaf beside it at the coarser one's level, and sourced.
fn takes_near(file: &[u8], s: Sections, row: Row, node: usize, place: u64) -> bool
    requires sectioned { Sectioned file.now s }
    requires counted { Counted s.axes (column_in file.now 1) (column_in file.now 2) (column_in file.now 4) × Cell s.axes (column_in file.now 1) row
        × Node s.axes (column_in file.now 1) node place }
    ensures { result ≡ in_u s.axes (column_in file.now 1) (column_in file.now 2) row.cell (get_or (column_in file.now 1) node 0) }
{
    if !is_leaf(file, s, node) {
        return false;
    }
    let total = number_of(file, s, 4, node);
    if total < 1 {
        return false;
    }
    let level = key_of(file, s, 1, node) % 32768;
    let from = row.cell % 32768;
    if level < from {
        return places::is_beside(place, row.place, from - level);
    }
    places::is_beside(row.place, place, level - from)
}

// The same for either row.
fn is_taken(file: &[u8], s: Sections, far: bool, row: Row, node: usize, place: u64) -> bool
    requires sectioned { Sectioned file.now s }
    requires counted { Counted s.axes (column_in file.now 1) (column_in file.now 2) (column_in file.now 4) × Cell s.axes (column_in file.now 1) row
        × Node s.axes (column_in file.now 1) node place }
    ensures { result ≡ takes s.axes (column_in file.now 1) (column_in file.now 2) far row.cell (get_or (column_in file.now 1) node 0) }
{
    if far {
        return takes_far(file, s, row, node, place);
    }
    takes_near(file, s, row, node, place)
}

// Entry i of a row.
fn entry_at(file: &[u8], s: Sections, code: usize, from: usize, to: usize, i: usize) -> u64
    requires sectioned { Sectioned file.now s × (1 ≤ code) × (code ≤ 9) × (width_of code ≡ 8) }
    requires from_le_to { (from ≤ to) × (to ≤ length (column_in file.now code)) × (i < length (part (column_in file.now code) from to)) }
    ensures { result ≡ get_or (part (column_in file.now code) from to) i 0 }
{
    key_of(file, s, code, from + i)
}

// Whether an entry is above the one before it.
fn rises_at(file: &[u8], s: Sections, code: usize, from: usize, to: usize, i: usize) -> bool
    requires sectioned { Sectioned file.now s × (1 ≤ code) × (code ≤ 9) × (width_of code ≡ 8) }
    requires from_le_to { (from ≤ to) × (to ≤ length (column_in file.now code)) × (i < length (part (column_in file.now code) from to)) }
    ensures { result ≡ rises_at (part (column_in file.now code) from to) i }
{
    if i < 1 {
        return true;
    }
    let before = entry_at(file, s, code, from, to, i - 1);
    let here = entry_at(file, s, code, from, to, i);
    before < here
}

// How many sources a row brings, if it can be the cell's.
pub fn row_sources(
    file: &[u8],
    s: Sections,
    far: bool,
    row: Row,
    code: usize,
    from: usize,
    to: usize,
) -> Option<usize>
    requires sectioned { Sectioned file.now s × (1 ≤ code) × (code ≤ 9) × (width_of code ≡ 8) }
    requires from_le_to { (from ≤ to) × (to ≤ length (column_in file.now code)) }
    requires counted { Counted s.axes (column_in file.now 1) (column_in file.now 2) (column_in file.now 4) × Cell s.axes (column_in file.now 1) row }
    ensures { Brings s.axes (column_in file.now 1) (column_in file.now 2) (column_in file.now 4) far row.cell
        (part (column_in file.now code) from to) result }
{
    let n = to - from;
    let mut sum: usize = 0;
    for i in 0..n {
        if !rises_at(file, s, code, from, to, i) {
            return None;
        }
        let k = entry_at(file, s, code, from, to, i);
        let spot = seek(file, s, k)?;
        if !is_taken(file, s, far, row, spot.node, spot.place) {
            return None;
        }
        let total = number_of(file, s, 4, spot.node);
        sum = list_rows::held(sum + total);
    }
    Some(sum)
}
