#![tactic(auto)]

// The slices lent to a build, at its end: filled from the words and the marks of the growth, or cleared.
ghost use Rattle.std.specs.Prelude.{◌≡◌, ◌++◌, map, ◌-◌, ◌≤◌, length, take, replicate, IfOk};
ghost use Rattle.slices.specs.Lists.{sum};
ghost use Rattle.tree.specs.Order.{depth_of};
ghost use Rattle.growth.specs.Columns.{begin_column};
ghost use Rattle.grow.specs.Rows.{own_marked, sum_marked};
ghost use Rattle.filling.specs.Slices.{indices as indices_of, slices, RowsPut, grown_of, Ended};

use growth::Grown;
use refusal::Refusal;

// How many sources and nodes are put: the sources' words stand in the work, and the nodes' marks in the column of the totals.
#[derive(Clone, Copy)]
pub struct Started {
    pub rows: usize,
    pub nodes: usize,
}

// Writes the order column from the words in the work, clears what is unused, and answers the depth of the first n nodes.
fn finish(rows: usize, n: usize, work: &mut [u64], indices: &mut [usize], key: &mut [u64]) -> u64
    requires { (rows ≤ length work.old) × (rows ≤ length indices.old) × (n ≤ length key.old) }
    ensures value { result ≡ depth_of (take n key.old) }
    ensures work_after { work.new ≡ replicate (length work.old) 0 }
    ensures indices_after { indices.new ≡ indices_of (take rows work.old) ++ replicate (length indices.old - rows) 0 }
    ensures key_after { key.new ≡ take n key.old ++ replicate (length key.old - n) 0 }
{
    let depth = tree::depth_of(&key[..n]);
    grow::take_indices(work, rows, indices);
    slices::clear_from_usize(indices, rows);
    slices::clear(work);
    slices::clear_from(key, n);
    depth
}

// Spreads the first n marks out, which stand in `total`, and clears what is unused behind them.
fn fill_columns(n: usize, own: &mut [usize], begin: &mut [usize], total: &mut [usize])
    requires { (n ≤ length own.old) × (n ≤ length begin.old) × (n ≤ length total.old) × (sum (map own_marked (take n total.old)) ≤ 1048576) }
    ensures own_after { own.new ≡ map own_marked (take n total.old) ++ replicate (length own.old - n) 0 }
    ensures begin_after { begin.new ≡ begin_column (map own_marked (take n total.old)) ++ replicate (length begin.old - n) 0 }
    ensures total_after { total.new ≡ map sum_marked (take n total.old) ++ replicate (length total.old - n) 0 }
{
    grow::spread_marks(n, own, begin, total);
    slices::clear_from_usize(own, n);
    slices::clear_from_usize(begin, n);
    slices::clear_from_usize(total, n);
}

// Clears the work, the order column and the keys.
pub fn clear_keys(work: &mut [u64], indices: &mut [usize], key: &mut [u64])
    ensures work_after { work.new ≡ replicate (length work.old) 0 }
    ensures indices_after { indices.new ≡ replicate (length indices.old) 0 }
    ensures key_after { key.new ≡ replicate (length key.old) 0 }
{
    slices::clear(work);
    slices::clear_usize(indices);
    slices::clear(key);
}

// Fills the slices where all nodes are put, and else clears them. Answers the number of nodes and their depth, or the refusal.
pub fn fill_or_clear(
    started: Result<Started, Refusal>,
    work: &mut [u64],
    indices: &mut [usize],
    key: &mut [u64],
    own: &mut [usize],
    begin: &mut [usize],
    total: &mut [usize],
) -> Result<Grown, Refusal>
    requires { IfOk started (λ s. RowsPut s.rows s.nodes (slices work.old indices.old key.old own.old begin.old total.old)) }
    ensures value { result ≡ grown_of started key.old }
    ensures slices_after { Ended started (slices work.old indices.old key.old own.old begin.old total.old)
        (slices work.new indices.new key.new own.new begin.new total.new) }
{
    match started {
        Ok(s) => {
            let depth = finish(s.rows, s.nodes, work, indices, key);
            fill_columns(s.nodes, own, begin, total);
            Ok(Grown {
                nodes: s.nodes,
                depth,
            })
        }
        Err(refusal) => {
            clear_keys(work, indices, key);
            tree::clear_columns(own, begin, total);
            Err(refusal)
        }
    }
}
