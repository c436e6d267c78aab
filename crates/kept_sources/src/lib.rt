#![tactic(auto)]

// How many sources a salvage keeps, where there is no room for its nodes: row by row, each against all others where it must be.
ghost use Rattle.std.specs.Prelude.{◌≡◌, true, ◌≤◌, ◌<◌, min, eqb, length, get_or};
ghost use Rattle.morton.specs.Keys.{axes_known, level_of};
ghost use Rattle.tree.specs.Nodes.{node_number};
ghost use Rattle.salvaged.specs.Nodes.{input};
ghost use Rattle.kept_sources.specs.Rows.{below, lowest, row_count, rows_sum, sources_check, Readable};

use refusal::Refusal;

pub const MOST_SOURCES: usize = 1048576;

// Whether no row before it has its key.
fn is_first(key: &[u64], row: usize) -> bool
    requires { row < length key.now }
    ensures { result ≡ eqb (node_number key.now (get_or key.now row 0)) row }
{
    let k = key[row];
    for j in 0..row {
        if key[j] == k {
            return false;
        }
    }
    true
}

// Whether cell j lies in cell k and is not k.
fn is_below(axes: usize, k: u64, j: u64) -> bool
    requires { (axes ≤ 3) × (level_of j ≤ 16) }
    ensures { result ≡ below axes k j }
{
    let level = k % 32768;
    let deeper = j % 32768;
    if deeper <= level {
        return false;
    }
    let shift = axes as u64 * (deeper - level);
    (j / 32768) >> shift == k / 32768
}

// Whether no valid row is below cell k.
fn is_lowest(axes: usize, key: &[u64], k: u64) -> bool
    requires { axes_known axes ≡ true }
    ensures { result ≡ lowest axes key.now k }
{
    for &x in key {
        if kept_keys::is_valid(axes, x) && is_below(axes, k, x) {
            return false;
        }
    }
    true
}

// What a row brings, or at most.
fn row_count(
    exact: bool,
    axes: usize,
    key: &[u64],
    own: &[usize],
    begin: &[usize],
    order: &[usize],
    row: usize,
) -> usize
    requires { Readable (input axes key.now own.now begin.now order.now) × (row < length key.now) }
    ensures { result ≡ row_count (input axes key.now own.now begin.now order.now) exact row }
{
    let k = key[row];
    if !kept_keys::is_valid(axes, k) {
        return 0;
    }
    if !node_counts::run_fits(begin[row], own[row], order.len()) {
        return 0;
    }
    if !exact {
        return own[row];
    }
    if k == 0 {
        return 0;
    }
    if !is_first(key, row) {
        return 0;
    }
    if is_lowest(axes, key, k) {
        return own[row];
    }
    0
}

// What all rows bring, or at most; one more than the most sources where it is more than these.
fn sum_rows(
    exact: bool,
    axes: usize,
    key: &[u64],
    own: &[usize],
    begin: &[usize],
    order: &[usize],
) -> usize
    requires { Readable (input axes key.now own.now begin.now order.now) }
    ensures { result ≡ min (rows_sum (input axes key.now own.now begin.now order.now) exact) 1048577 }
{
    let mut sum = 0;
    for row in 0..key.len() {
        let n = row_count(exact, axes, key, own, begin, order, row);
        if MOST_SOURCES - sum < n {
            return MOST_SOURCES + 1;
        }
        sum += n;
    }
    sum
}

// Whether the sources are too many for a tree or for so many places: by what the rows bring at most, and where that is too many by what each brings.
pub fn sources_outcome(
    axes: usize,
    key: &[u64],
    own: &[usize],
    begin: &[usize],
    order: &[usize],
    places: usize,
) -> Result<(), Refusal>
    requires { Readable (input axes key.now own.now begin.now order.now) }
    ensures { result ≡ sources_check (input axes key.now own.now begin.now order.now) places }
{
    let most = sum_rows(false, axes, key, own, begin, order);
    if most <= MOST_SOURCES {
        if most <= places {
            return Ok(());
        }
    }
    let sum = sum_rows(true, axes, key, own, begin, order);
    if MOST_SOURCES < sum {
        return Err(Refusal::Tree);
    }
    if places < sum {
        return Err(Refusal::Room(2));
    }
    Ok(())
}
