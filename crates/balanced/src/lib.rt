#![tactic(auto)]

// The balanced tree: document 02, order 9.
ghost use Rattle.std.specs.Prelude.{◌≡◌, ◌≤◌, ◌<◌, length, replicate, IfOk};
ghost use Rattle.refusal.specs.Outcome.{ending};
ghost use Rattle.tree.specs.Columns.{columns};
ghost use Rattle.balanced.specs.Outcomes.{rooms, given_check, balance_outcome, Started as StartedWith, balance_answer, order_left, keys_left, own_left, begins_left, totals_left};

use growth::Grown;
use refusal::Refusal;
use space::Box;

// Why the tree and its points are refused, if they are: with no room lent.
fn given_outcome(
    b: Box,
    points: &[f64],
    key: &[u64],
    own: &[usize],
    begin: &[usize],
    total: &[usize],
    indices: &[usize],
) -> Result<(), Refusal>
    ensures { result ≡ given_check b points.now (columns key.now own.now begin.now total.now) indices.now }
{
    lookup::shape_outcome(b, points.len())?;
    let axes = b.axes;
    if !tree::is_well_formed(axes, key, own, begin, total) {
        return Err(Refusal::Tree);
    }
    if !full::is_full(axes, key) {
        return Err(Refusal::Partial);
    }
    laying::first_outside(b, points).map_err(Refusal::Source)?;
    if !points_right::points_right(b, points, key, own, begin, total, indices) {
        return Err(Refusal::NotBuilt);
    }
    Ok(())
}

// Checks the call with so much room, and puts the cells of the balanced tree. Answers how many. After a refusal the slice holds anything.
fn start(
    b: Box,
    points: &[f64],
    key: &[u64],
    own: &[usize],
    begin: &[usize],
    total: &[usize],
    indices: &[usize],
    work: usize,
    places: usize,
    room: usize,
    new_key: &mut [u64],
) -> Result<usize, Refusal>
    requires { (room ≤ length new_key.old) × (room ≤ 1048576) }
    ensures outcome_value { ending result ≡ balance_outcome b points.now (columns key.now own.now begin.now total.now) indices.now work places room }
    ensures started_with { IfOk result (λ n. StartedWith b points.now (columns key.now own.now begin.now total.now) indices.now work places room n new_key.new) }
{
    given_outcome(b, points, key, own, begin, total, indices)?;
    let axes = b.axes;
    let rows = points.len() / axes;
    if work < rows + rows {
        return Err(Refusal::Room(1));
    }
    if places < rows {
        return Err(Refusal::Room(2));
    }
    let n = balancing::put_cells(axes, key, room, new_key);
    if room < n {
        return Err(Refusal::Room(3));
    }
    Ok(n)
}

// Clears the work, the order column and the keys.
fn clear_keys(work: &mut [u64], indices: &mut [usize], key: &mut [u64])
    ensures work_after { work.new ≡ replicate (length work.old) 0 }
    ensures indices_after { indices.new ≡ replicate (length indices.old) 0 }
    ensures key_after { key.new ≡ replicate (length key.old) 0 }
{
    slices::clear(work);
    slices::clear_usize(indices);
    slices::clear(key);
}

// The tree with the fewest cells that contains all cells of the given one, has all children or none of each cell, and no two touching leaves more than one level apart; with the points in its leaves. Answers its number of nodes and its depth.
pub fn balance_tree(
    b: Box,
    points: &[f64],
    key: &[u64],
    own: &[usize],
    begin: &[usize],
    total: &[usize],
    indices: &[usize],
    work: &mut [u64],
    new_indices: &mut [usize],
    new_key: &mut [u64],
    new_own: &mut [usize],
    new_begin: &mut [usize],
    new_total: &mut [usize],
) -> Result<Grown, Refusal>
    ensures value { result ≡ balance_answer b points.now (columns key.now own.now begin.now total.now) indices.now
        (rooms work.old new_indices.old new_key.old new_own.old new_begin.old new_total.old) }
    ensures work_after { work.new ≡ replicate (length work.old) 0 }
    ensures new_indices_after { new_indices.new ≡ order_left b points.now (columns key.now own.now begin.now total.now) indices.now
        (rooms work.old new_indices.old new_key.old new_own.old new_begin.old new_total.old) }
    ensures new_key_after { new_key.new ≡ keys_left b points.now (columns key.now own.now begin.now total.now) indices.now
        (rooms work.old new_indices.old new_key.old new_own.old new_begin.old new_total.old) }
    ensures new_own_after { new_own.new ≡ own_left b points.now (columns key.now own.now begin.now total.now) indices.now
        (rooms work.old new_indices.old new_key.old new_own.old new_begin.old new_total.old) }
    ensures new_begin_after { new_begin.new ≡ begins_left b points.now (columns key.now own.now begin.now total.now) indices.now
        (rooms work.old new_indices.old new_key.old new_own.old new_begin.old new_total.old) }
    ensures new_total_after { new_total.new ≡ totals_left b points.now (columns key.now own.now begin.now total.now) indices.now
        (rooms work.old new_indices.old new_key.old new_own.old new_begin.old new_total.old) }
{
    let room = tree::node_room(
        new_key.len(),
        new_own.len(),
        new_begin.len(),
        new_total.len(),
    );
    let started = start(
        b,
        points,
        key,
        own,
        begin,
        total,
        indices,
        work.len(),
        new_indices.len(),
        room,
        new_key,
    );
    let n = match started {
        Ok(n) => n,
        Err(refusal) => {
            clear_keys(work, new_indices, new_key);
            tree::clear_columns(new_own, new_begin, new_total);
            return Err(refusal);
        }
    };
    let depth = tree::depth_of(&new_key[..n]);
    settling::settle(
        b,
        points,
        &new_key[..n],
        work,
        new_own,
        new_begin,
        new_total,
        new_indices,
    );
    slices::clear(work);
    slices::clear_from(new_key, n);
    Ok(Grown { nodes: n, depth })
}
