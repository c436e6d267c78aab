#![tactic(auto)]

// The sum check of one leaf: its readings added up through its rows, the near ones one by one and the far ones by cells. Document 02, order 12.
ghost use Rattle.std.specs.Prelude.{◌≡◌};
ghost use Rattle.refusal.specs.Outcome.{accepted};
ghost use Rattle.tree.specs.Columns.{columns};
ghost use Rattle.tree.specs.Finding.{TreeKeys};
ghost use Rattle.sourced.specs.Answers.{tree_check};
ghost use Rattle.sum_check.specs.Checks.{is_small, first_large, readings_check, is_leaf_at, is_built, sum_check};
ghost use Rattle.sum_check.specs.Answers.{sums_of, sum_answer, Together};

use refusal::Refusal;

// The near sum and the far sum of a leaf, and the number of additions.
#[derive(Clone, Copy)]
pub struct Sums {
    pub near: i64,
    pub far: i64,
    pub additions: usize,
}

// Whether a reading is at most 2^40 in size.
fn is_small(reading: i64) -> bool
    ensures { result ≡ is_small reading }
{
    if reading < -1099511627776 {
        return false;
    }
    reading <= 1099511627776
}

// The lowest index of a reading that is too large, the number of readings if none is.
fn first_large(readings: &[i64]) -> usize
    ensures { result ≡ first_large readings.now }
{
    for i in 0..readings.len() {
        if !is_small(readings[i]) {
            return i;
        }
    }
    readings.len()
}

// The refusals of the tree and the readings.
pub fn readings_outcome(
    axes: usize,
    key: &[u64],
    own: &[usize],
    begin: &[usize],
    total: &[usize],
    readings: &[i64],
) -> Result<(), Refusal>
    ensures { result ≡ readings_check axes (columns key.now own.now begin.now total.now) readings.now }
{
    sourced::check_tree(axes, key, own, begin, total)?;
    if readings.len() != total[0] {
        return Err(Refusal::Shape);
    }
    let large = first_large(readings);
    if large != readings.len() {
        return Err(Refusal::Reading(large));
    }
    Ok(())
}

// Whether a number is a leaf's.
fn is_leaf_at(axes: usize, key: &[u64], node: usize) -> bool
    requires { TreeKeys axes key.now }
    ensures { result ≡ is_leaf_at axes key.now node }
{
    if key.len() <= node {
        return false;
    }
    tree::is_leaf(axes, key, node)
}

// Whether the lists are the tree's, and the order arranges all indices.
pub fn is_built(
    axes: usize,
    key: &[u64],
    own: &[usize],
    begin: &[usize],
    total: &[usize],
    indices: &[usize],
    u_starts: &[usize],
    u_keys: &[u64],
    v_starts: &[usize],
    v_keys: &[u64],
) -> bool
    requires { tree_check axes (columns key.now own.now begin.now total.now) ≡ accepted }
    ensures { result ≡ is_built axes (columns key.now own.now begin.now total.now) indices.now
        u_starts.now u_keys.now v_starts.now v_keys.now }
{
    if !list_check::are_lists(axes, key, own, total, u_starts, u_keys, v_starts, v_keys) {
        return false;
    }
    arrangement::is_arrangement(indices, total[0])
}

// The refusals of all arguments.
fn sum_outcome(
    axes: usize,
    key: &[u64],
    own: &[usize],
    begin: &[usize],
    total: &[usize],
    indices: &[usize],
    readings: &[i64],
    u_starts: &[usize],
    u_keys: &[u64],
    v_starts: &[usize],
    v_keys: &[u64],
    node: usize,
) -> Result<(), Refusal>
    ensures { result ≡ sum_check axes (columns key.now own.now begin.now total.now) indices.now
        readings.now u_starts.now u_keys.now v_starts.now v_keys.now node }
{
    readings_outcome(axes, key, own, begin, total, readings)?;
    if !is_leaf_at(axes, key, node) {
        return Err(Refusal::NotLeaf(node));
    }
    if is_built(
        axes, key, own, begin, total, indices, u_starts, u_keys, v_starts, v_keys,
    ) {
        return Ok(());
    }
    Err(Refusal::NotBuilt)
}

// The sums of a leaf, all arguments checked.
fn leaf_sums(
    axes: usize,
    key: &[u64],
    own: &[usize],
    begin: &[usize],
    total: &[usize],
    indices: &[usize],
    readings: &[i64],
    u_starts: &[usize],
    u_keys: &[u64],
    v_starts: &[usize],
    v_keys: &[u64],
    node: usize,
) -> Sums
    requires { sum_check axes (columns key.now own.now begin.now total.now) indices.now readings.now u_starts.now u_keys.now
        v_starts.now v_keys.now node ≡ accepted }
    ensures { result ≡ sums_of axes (columns key.now own.now begin.now total.now) indices.now readings.now node }
{
    let from = u_starts[node];
    let to = u_starts[node + 1];
    let near = row_sums::row_sum(axes, key, own, begin, indices, readings, &u_keys[from..to]);
    let sources = row_sums::row_count(axes, key, own, &u_keys[from..to]);
    let far = row_sums::far_sum(
        axes, key, total, begin, indices, readings, v_starts, v_keys, node,
    );
    Sums {
        near,
        far: far.sum,
        additions: sources + far.cells,
    }
}

// The near sum and the far sum of a leaf's readings, apart, and the additions: one for each near source and one for each far cell.
pub fn sum_check(
    axes: usize,
    key: &[u64],
    own: &[usize],
    begin: &[usize],
    total: &[usize],
    indices: &[usize],
    readings: &[i64],
    u_starts: &[usize],
    u_keys: &[u64],
    v_starts: &[usize],
    v_keys: &[u64],
    node: usize,
) -> Result<Sums, Refusal>
    ensures answer { result ≡ sum_answer axes (columns key.now own.now begin.now total.now) indices.now
        readings.now node u_starts.now u_keys.now v_starts.now v_keys.now }
    ensures together { Together readings.now result }
{
    sum_outcome(
        axes, key, own, begin, total, indices, readings, u_starts, u_keys, v_starts, v_keys, node,
    )?;
    Ok(leaf_sums(
        axes, key, own, begin, total, indices, readings, u_starts, u_keys, v_starts, v_keys, node,
    ))
}
