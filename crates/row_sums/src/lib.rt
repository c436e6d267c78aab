#![tactic(auto)]

// Readings added up over a row of keys, walked through a reader: document 02, order 12.
ghost use Rattle.std.specs.Prelude.{◌≡◌, ◌≤◌, ◌*◌, nat_abs, get_or};
ghost use Rattle.slices.specs.Lists.{range};
ghost use Rattle.tree.specs.Nodes.{own_of};
ghost use Rattle.tree.specs.WellFormed.{most_sources};
ghost use Rattle.sums.specs.Adding.{addedℤ};
ghost use Rattle.sums.specs.Sums.{reading_at, node_readings};
ghost use Rattle.row_sums.specs.Readings.{largest, Read, Readable, Counts, Columns, sources_in};
ghost use Rattle.row_sums.specs.Climb.{Climb, far_readings, far_cells};

use morton::keys;

// The readings of the sources at so many places, from one on.
fn run_sum(indices: &[usize], readings: &[i64], from: usize, count: usize) -> i64
    requires { Readable indices.now readings.now from count }
    ensures sum { result ≡ addedℤ (reading_at indices.now readings.now) (range from count) }
    ensures bounded { nat_abs result ≤ count * largest }
{
    let mut sum: i64 = 0;
    for i in 0..count {
        sum += readings[indices[from + i]];
    }
    sum
}

// What the node with key k has by two columns, a count and a begin for each node; 0 if there is none.
fn node_sum(
    axes: usize,
    key: &[u64],
    count: &[usize],
    begin: &[usize],
    indices: &[usize],
    readings: &[i64],
    k: u64,
) -> i64
    requires { Columns axes key.now count.now begin.now indices.now × Read indices.now readings.now × (own_of key.now count.now k ≤ most_sources) }
    ensures sum { result ≡ node_readings key.now count.now begin.now indices.now readings.now k }
    ensures bounded { nat_abs result ≤ own_of key.now count.now k * largest }
{
    let found = tree::find_node(axes, key, k);
    match found {
        Some(node) => run_sum(indices, readings, begin[node], count[node]),
        None => 0,
    }
}

// What the keys of a row have together: with the own counts the readings of its leaves, with the totals those of its cells.
pub fn row_sum(
    axes: usize,
    key: &[u64],
    count: &[usize],
    begin: &[usize],
    indices: &[usize],
    readings: &[i64],
    row: &[u64],
) -> i64
    requires { Columns axes key.now count.now begin.now indices.now × Read indices.now readings.now × (sources_in key.now count.now
        row.now ≤ most_sources) }
    ensures sum { result ≡ addedℤ (node_readings key.now count.now begin.now indices.now readings.now)
        row.now }
    ensures bounded { nat_abs result ≤ sources_in key.now count.now row.now * largest }
{
    let mut sum: i64 = 0;
    let mut at: usize = 0;
    while let Some(step) = row_reader::read(row, at) {
        sum += node_sum(axes, key, count, begin, indices, readings, step.key);
        at = step.next;
    }
    sum
}

// What the node with key k has by a column of counts; 0 if there is none.
fn count_of(axes: usize, key: &[u64], count: &[usize], k: u64) -> usize
    requires { Counts axes key.now count.now }
    ensures { result ≡ own_of key.now count.now k }
{
    let found = tree::find_node(axes, key, k);
    match found {
        Some(node) => count[node],
        None => 0,
    }
}

// How many sources the keys of a row have together.
pub fn row_count(axes: usize, key: &[u64], count: &[usize], row: &[u64]) -> usize
    requires { Counts axes key.now count.now × (sources_in key.now count.now row.now ≤ most_sources) }
    ensures { result ≡ sources_in key.now count.now row.now }
{
    let mut sources: usize = 0;
    for &k in row {
        sources += count_of(axes, key, count, k);
    }
    sources
}

// The far sum of a cell, and how many far cells it has.
#[derive(Clone, Copy)]
pub struct Far {
    pub sum: i64,
    pub cells: usize,
}

// What the far rows of a node and its ancestors have together, from the node up to the root.
pub fn far_sum(
    axes: usize,
    key: &[u64],
    total: &[usize],
    begin: &[usize],
    indices: &[usize],
    readings: &[i64],
    starts: &[usize],
    flat: &[u64],
    node: usize,
) -> Far
    requires { Climb axes key.now total.now begin.now indices.now readings.now starts.now flat.now node }
    ensures sum { result.sum ≡ far_readings axes key.now total.now begin.now indices.now readings.now
        starts.now flat.now (get_or key.now node 0) }
    ensures cells { result.cells ≡ far_cells axes key.now starts.now flat.now (get_or key.now node 0) }
    ensures bounded { nat_abs result.sum ≤ most_sources * largest }
{
    let mut sum: i64 = 0;
    let mut cells: usize = 0;
    let mut at = node;
    loop {
        let from = starts[at];
        let to = starts[at + 1];
        sum += row_sum(axes, key, total, begin, indices, readings, &flat[from..to]);
        cells += to - from;
        let k = key[at];
        if k % 32768 == 0 {
            return Far { sum, cells };
        }
        let found = tree::find_node(axes, key, keys::parent_of(axes, k));
        let Some(up) = found else {
            return Far { sum, cells };
        };
        at = up;
    }
}
