#![tactic(auto)]

// The columns of a tree with one source more, where no cell splits for it: copied around the one cell that changes. Document 02, order 7.
ghost use Rattle.std.specs.Prelude.{◌≡◌, false, [], ◌∷◌, ◌++◌, map, ◌+◌, ◌-◌, ◌≤◌, ◌<◌, length, get_or, take, drop};
ghost use Rattle.slices.specs.Lists.{bit, range};
ghost use Rattle.morton.specs.Keys.{level_of, holds as holds_of};
ghost use Rattle.grow.specs.Rows.{mark_of};
ghost use Rattle.spliced_columns.specs.Marks.{row_mark};
ghost use Rattle.splicing.specs.Copies.{Copied, Rows, row_at};

// Copies n keys.
fn copy_keys(key: &[u64], from: usize, n: usize, out: &mut [u64], at: usize)
    requires { (from + n ≤ length key.now) × (at + n ≤ length out.old) }
    ensures { Copied n at (λ j. get_or key.now (from + j) 0) out.old out.new }
{
    out[at..at + n].copy_from_slice(&key[from..from + n]);
}

// Copies n indices into the work.
fn copy_order(order: &[usize], from: usize, n: usize, work: &mut [u64], at: usize)
    requires { (from + n ≤ length order.now) × (at + n ≤ length work.old) }
    ensures { Copied n at (λ j. get_or order.now (from + j) 0) work.old work.new }
{
    for i in 0..n {
        work[at + i] = order[from + i] as u64;
    }
}

// Whether the cell with key k holds the code.
fn is_on(axes: usize, k: u64, code: u64) -> bool
    requires { (axes ≤ 3) × (level_of k ≤ 16) }
    ensures { result ≡ holds_of axes k code }
{
    let shift = axes as u64 * (16 - k % 32768);
    code >> shift == k / 32768
}

// The sources in a cell: one more where it holds the code.
fn sum_with(axes: usize, code: u64, k: u64, total: usize) -> usize
    requires { (axes ≤ 3) × (level_of k ≤ 16) × (total ≤ 1048576) }
    ensures { result ≡ total + bit (holds_of axes k code) }
{
    if is_on(axes, k, code) {
        return total + 1;
    }
    total
}

// The mark of a node that stays as it is, but for the new source in the cells that hold it.
fn mark_row(axes: usize, code: u64, k: u64, own: usize, total: usize) -> usize
    requires { (axes ≤ 3) × (level_of k ≤ 16) × (total ≤ 1048576) }
    ensures { result ≡ row_mark axes code k own total }
{
    let sum = sum_with(axes, code, k, total);
    if own == 0 {
        return 2 * sum;
    }
    2 * sum + 1
}

// Marks n nodes that stay as they are.
fn mark_rows(
    axes: usize,
    code: u64,
    key: &[u64],
    own: &[usize],
    total: &[usize],
    from: usize,
    n: usize,
    mark: &mut [usize],
    at: usize,
)
    requires { Rows axes key.now own.now total.now × (from + n ≤ length key.now) × (at + n ≤ length mark.old) }
    ensures { Copied n at (λ j. row_at axes code key.now own.now total.now (from + j)) mark.old mark.new }
{
    for i in 0..n {
        let row = from + i;
        mark[at + i] = mark_row(axes, code, key[row], own[row], total[row]);
    }
}

// The keys around one cell.
pub fn put_keys(key: &[u64], from: usize, to: usize, cell: u64, out: &mut [u64])
    requires { (from ≤ to) × (to ≤ length key.now) × (from + 1 + (length key.now - to) ≤ length out.old) }
    ensures { take (from + 1 + (length key.now - to)) out.new ≡ (take from key.now ++ cell ∷ []) ++ drop to key.now }
{
    copy_keys(key, 0, from, out, 0);
    out[from] = cell;
    let rest = key.len() - to;
    copy_keys(key, to, rest, out, from + 1);
}

// The order column with one index more, in the work.
pub fn put_order(order: &[usize], at: usize, index: usize, work: &mut [u64])
    requires { (at ≤ length order.now) × (at + 1 + (length order.now - at) ≤ length work.old) }
    ensures { take (at + 1 + (length order.now - at)) work.new ≡ (take at order.now ++ index ∷ []) ++ drop at order.now }
{
    copy_order(order, 0, at, work, 0);
    work[at] = index as u64;
    let rest = order.len() - at;
    copy_order(order, at, rest, work, at + 1);
}

// The marks of the nodes around one cell, which is a leaf with so many sources.
pub fn put_marks(
    axes: usize,
    code: u64,
    key: &[u64],
    own: &[usize],
    total: &[usize],
    from: usize,
    to: usize,
    sum: usize,
    mark: &mut [usize],
)
    requires { Rows axes key.now own.now total.now × (from ≤ to) × (to ≤ length key.now) × (sum ≤ 1048576) × (from + 1 + (length key.now - to) ≤ length mark.old) }
    ensures { take (from + 1 + (length key.now - to)) mark.new
        ≡ (map (row_at axes code key.now own.now total.now) (range 0 from) ++ mark_of sum false ∷ [])
        ++ map (row_at axes code key.now own.now total.now) (range to (length key.now - to)) }
{
    mark_rows(axes, code, key, own, total, 0, from, mark, 0);
    mark[from] = 2 * sum + 1;
    let rest = key.len() - to;
    mark_rows(axes, code, key, own, total, to, rest, mark, from + 1);
}
