// Sums of the sources along the cells one level above the reference depth: how many sources a cell has, without the sources in order.
ghost use Rattle.std.specs.Prelude.{◌≡◌, ◌^◌, ◌≤◌, ◌<◌, length};
ghost use Rattle.slices.specs.Lists.{sum};
ghost use Rattle.morton.specs.Keys.{level_of, ValidKey};
ghost use Rattle.refine.specs.Counts.{sources_in};
ghost use Rattle.refine.specs.Sums.{Sums, Summable, Summed, OfSources};
ghost use Rattle.refine.specs.Cells.{Shifted, CellCounts, CellSums, RunningSums};

use morton::keys;

// How many codes lie in each cell, whose code is theirs without the last `shift` bits.
fn count_cells(shift: u64, codes: &[u64], counts: &mut [usize])
    requires { (shift < 64) × Shifted shift codes.now (length counts.old) }
    ensures { CellCounts shift codes.now counts.new }
{
    slices::clear_usize(counts);
    for code in codes {
        let cell = (*code >> shift) as usize;
        counts[cell] += 1;
    }
}

// Adds to each entry those before it.
fn add_up(column: &mut [usize])
    requires { sum column.old < 2 ^ 64 }
    ensures { RunningSums column.old column.new }
{
    let mut run: usize = 0;
    for entry in column.iter_mut() {
        run += *entry;
        *entry = run;
    }
}

// How many codes lie in each cell and those before it.
fn sum_cells(shift: u64, codes: &[u64], sums: &mut [usize])
    requires { (shift < 64) × Shifted shift codes.now (length sums.old) }
    ensures { CellSums shift codes.now sums.new }
{
    count_cells(shift, codes, sums);
    add_up(sums);
}

// Puts the sums of the sources' codes into the first entries of a column, whatever stood there. An empty column stays as it is.
pub fn add_sums(axes: usize, depth: u64, codes: &[u64], sums: &mut [usize])
    requires { Summable axes depth codes.now (length sums.old) }
    ensures { Sums axes depth codes.now sums.new }
{
    if sums.len() == 0 {
        return;
    }
    let above = depth - 1;
    let cells: usize = 1 << (axes as u64 * above);
    sum_cells(axes as u64 * (16 - above), codes, &mut sums[..cells]);
}

// How many sources a cell has that lies above the reference depth: those up to its last cell without those before its first.
pub fn sources_in(axes: usize, depth: u64, sums: &[usize], key: u64) -> usize
    requires { ValidKey axes key × (level_of key < depth) × Summed axes depth sums.now }
    ensures { OfSources axes depth sums.now (λ sources. result ≡ sources_in axes sources key) }
{
    if sums.len() == 0 {
        return 0;
    }
    let code = keys::code_of(key);
    let shift = axes as u64 * (depth - 1 - keys::level_of(key));
    let from = (code << shift) as usize;
    let to = ((code + 1) << shift) as usize;
    if from == 0 {
        return sums[to - 1];
    }
    sums[to - 1] - sums[from - 1]
}
