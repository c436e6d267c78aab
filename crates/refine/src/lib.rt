#![tactic(auto)]

// When targets split a cell: document 01, "How the tree grows", from `target_refinement.rs`.
mod sums; // sums.rt: how many sources a cell has, asked of sums along the cells one level above the reference depth

ghost use Rattle.std.specs.Prelude.{◌≡◌, ◌≤◌, length};
ghost use Rattle.slices.specs.Order.{Sorted};
ghost use Rattle.morton.specs.Keys.{level_of, code_of, ValidKey};
ghost use Rattle.morton.specs.Depth.{reference_depth};
ghost use Rattle.refine.specs.Counts.{count_at, targets_in};
ghost use Rattle.refine.specs.Sums.{Summed, OfSources};
ghost use Rattle.refine.specs.Refinement.{near_limit, lifted as lifted_above, counts_around, around_by, factor as factor_of, splits_by, splits_at};

use morton::keys;
pub use sums::add_sums;

// The counts around a cell: how many peers, the sum of their counts, and the sum of the counts' squares.
#[derive(Clone, Copy)]
pub struct Around {
    pub peers: usize,
    pub sum: usize,
    pub squares: usize,
}

// The least depth whose cells are at least as many as the sources, held to 1..16.
pub fn reference_depth(axes: usize, sources: usize) -> u64
    requires { axes ≤ 3 }
    ensures { result ≡ reference_depth axes sources }
{
    for depth in 1..16 {
        let cells: u64 = 1 << (axes as u64 * depth);
        if sources as u64 <= cells {
            return depth;
        }
    }
    16
}

// The larger of the cell limit and order^d, for any limit.
pub fn near_limit(axes: usize, limit: usize, order: usize) -> usize
    requires { (axes ≤ 3) × (order ≤ 64) }
    ensures { result ≡ near_limit axes limit order }
{
    limit.max(order.pow(axes as u32))
}

// How many codes of a sorted slice lie in a cell: from its first code at level 16 up to the next cell's first.
pub fn count_at(axes: usize, sorted: &[u64], key: u64) -> usize
    requires { ValidKey axes key × Sorted sorted.now }
    ensures { result ≡ count_at axes sorted.now (level_of key) (code_of key) }
{
    let code = keys::code_of(key);
    let shift = axes as u64 * (16 - keys::level_of(key));
    slices::count_in(sorted, code << shift, (code + 1) << shift)
}

// How many targets a cell has.
fn target_count(axes: usize, targets: &[u64], key: u64) -> usize
    requires { ValidKey axes key × Sorted targets.now }
    ensures { result ≡ targets_in axes targets.now key }
{
    count_at(axes, targets, key)
}

// A cell at or below the reference depth is replaced by its ancestor one level above that depth.
pub fn lifted(axes: usize, key: u64, depth: u64) -> u64
    requires { ValidKey axes key × (1 ≤ depth) }
    ensures { result ≡ lifted_above axes depth key }
{
    let level = keys::level_of(key);
    if level < depth {
        return key;
    }
    let up = axes as u64 * (level - (depth - 1));
    (keys::code_of(key) >> up) * 32768 + (depth - 1)
}

// The counts of the cell and of its neighbours, each taken above the reference depth, repeats kept.
fn count_around(axes: usize, key: u64, depth: u64, sums: &[usize]) -> Around
    requires { ValidKey axes key × Summed axes depth sums.now }
    ensures { OfSources axes depth sums.now (λ sources. result ≡ around_by (counts_around axes depth sources key)) }
{
    let list = neighbours::list_neighbours(axes, key);
    let others = list.keys;
    let len = list.len;
    let own = sums::sources_in(axes, depth, sums, lifted(axes, key, depth));
    let mut sum = own;
    let mut squares = own * own;
    for i in 0..len {
        let found = sums::sources_in(axes, depth, sums, lifted(axes, others[i], depth));
        sum += found;
        squares += found * found;
    }
    Around {
        peers: len + 1,
        sum,
        squares,
    }
}

// How many times the near limit a cell may have in targets, by the sources around it.
pub fn factor(axes: usize, key: u64, depth: u64, sums: &[usize]) -> usize
    requires { ValidKey axes key × Summed axes depth sums.now }
    ensures { OfSources axes depth sums.now (λ sources. result ≡ factor_of axes depth sources key) }
{
    let around = count_around(axes, key, depth, sums);
    if around.sum == 0 {
        return 32;
    }
    if depth < keys::level_of(key) {
        return 1;
    }
    if around.peers * around.squares <= 2 * (around.sum * around.sum) {
        16
    } else {
        1
    }
}

// Whether so many targets in a cell split it. With at most the near limit they do not, whatever the factor, and the rest fits.
pub fn splits_for_count(
    axes: usize,
    key: u64,
    limit: usize,
    order: usize,
    depth: u64,
    sums: &[usize],
    held: usize,
) -> bool
    requires { ValidKey axes key × Summed axes depth sums.now × (order ≤ 64) × (held ≤ 1048576) }
    ensures { OfSources axes depth sums.now (λ sources. result ≡ splits_by axes depth limit order sources held key) }
{
    let near = near_limit(axes, limit, order);
    if held <= near {
        return false;
    }
    near * factor(axes, key, depth, sums) < held
}

// Whether the targets in a cell split it.
pub fn splits_for_targets(
    axes: usize,
    key: u64,
    limit: usize,
    order: usize,
    depth: u64,
    sums: &[usize],
    targets: &[u64],
) -> bool
    requires { ValidKey axes key × Summed axes depth sums.now × (order ≤ 64) × Sorted targets.now × (length targets.now ≤ 1048576) }
    ensures { OfSources axes depth sums.now (λ sources. result ≡ splits_at axes depth limit order sources targets.now key) }
{
    let held = target_count(axes, targets, key);
    splits_for_count(axes, key, limit, order, depth, sums, held)
}
