#![tactic(auto)]

// Sums of readings over cells, each in two reads: the readings before each place are added up once, and what was found of a cell is kept. Document 02,
// order 12. Each reading is lifted by 2^40, so that none is below 0.
ghost use Rattle.std.specs.Prelude.{◌≡◌, ◌+◌, ◌≤◌, ◌<◌, nat_abs, length};
ghost use Rattle.tree.specs.Nodes.{own_of};
ghost use Rattle.tree.specs.WellFormed.{most_sources};
ghost use Rattle.row_sums.specs.Readings.{largest, Read, sources_in};
ghost use Rattle.cell_sums.specs.Lifted.{lift, run_lifted, cell_lifted, row_lifted, Before};
ghost use Rattle.cell_sums.specs.Kept.{Kept, Summed};

use morton::keys;

// How many cells the tables of what was found have slots for.
const SLOTS: usize = 1536;

// The lifted readings of a cell or a row, and how many sources it has.
#[derive(Clone, Copy)]
pub struct Part {
    pub sum: u64,
    pub count: usize,
}

// A reading, lifted.
fn lifted(reading: i64) -> u64
    requires { nat_abs reading ≤ largest }
    ensures { result ≡ lift reading }
{
    (reading + 1099511627776) as u64
}

// Adds up the readings before each place of the order column, and before its end.
pub fn fill_sums(indices: &[usize], readings: &[i64], sums: &mut [u64])
    requires { Read indices.now readings.now × (length indices.now ≤ most_sources) × (length indices.now < length sums.old) }
    ensures { Before indices.now readings.now sums.new }
{
    let mut sum: u64 = 0;
    sums[0] = 0;
    for (i, &index) in indices.iter().enumerate() {
        sum += lifted(readings[index]);
        sums[i + 1] = sum;
    }
}

// The readings of the sources at so many places, from one on.
fn run_sum(indices: &[usize], readings: &[i64], sums: &[u64], from: usize, count: usize) -> u64
    requires { Before indices.now readings.now sums.now × (from + count ≤ length indices.now) }
    ensures { result ≡ run_lifted indices.now readings.now from count }
{
    sums[from + count] - sums[from]
}

// What the cell with key k has; nothing if no node has it. What was found last for its slot is tried first.
fn cell_part(
    axes: usize,
    key: &[u64],
    total: &[usize],
    begin: &[usize],
    indices: &[usize],
    readings: &[i64],
    sums: &[u64],
    names: &mut [u64],
    held: &mut [u64],
    counts: &mut [usize],
    k: u64,
) -> Part
    requires summed { Summed axes key.now total.now begin.now indices.now readings.now sums.now }
    requires kept_2 { Kept key.now total.now begin.now indices.now readings.now names.old held.old counts.old }
    ensures sum { result.sum ≡ cell_lifted key.now total.now begin.now indices.now readings.now k }
    ensures count { result.count ≡ own_of key.now total.now k }
    ensures kept { Kept key.now total.now begin.now indices.now readings.now names.new
        held.new counts.new }
{
    let slot = keys::slot_of::<SLOTS>(k);
    if names[slot] == k {
        return Part {
            sum: held[slot],
            count: counts[slot],
        };
    }
    let found = tree::find_node(axes, key, k);
    let Some(node) = found else {
        return Part { sum: 0, count: 0 };
    };
    let count = total[node];
    let sum = run_sum(indices, readings, sums, begin[node], count);
    names[slot] = k;
    held[slot] = sum;
    counts[slot] = count;
    Part { sum, count }
}

// What the cells of a row have together.
pub fn row_part(
    axes: usize,
    key: &[u64],
    total: &[usize],
    begin: &[usize],
    indices: &[usize],
    readings: &[i64],
    sums: &[u64],
    names: &mut [u64],
    held: &mut [u64],
    counts: &mut [usize],
    row: &[u64],
) -> Part
    requires summed { Summed axes key.now total.now begin.now indices.now readings.now sums.now × (sources_in key.now total.now row.now ≤ most_sources) }
    requires kept_2 { Kept key.now total.now begin.now indices.now readings.now names.old held.old counts.old }
    ensures sum { result.sum ≡ row_lifted key.now total.now begin.now indices.now readings.now
        row.now }
    ensures count { result.count ≡ sources_in key.now total.now row.now }
    ensures kept { Kept key.now total.now begin.now indices.now readings.now names.new
        held.new counts.new }
{
    let mut sum: u64 = 0;
    let mut count: usize = 0;
    for &k in row {
        let cell = cell_part(
            axes, key, total, begin, indices, readings, sums, names, held, counts, k,
        );
        sum += cell.sum;
        count += cell.count;
    }
    Part { sum, count }
}
