#![tactic(auto)]

// Near work: the sum over leaves of looked-up targets times sources in the U row.
mod listed; // listed.rt: near work over a U list that is at hand

ghost use Rattle.std.specs.Prelude.{◌≡◌, true, map, ◌≤◌, length, replicate, IfOk};
ghost use Rattle.refusal.specs.Outcome.{accepted};
ghost use Rattle.slices.specs.Lists.{filled};
ghost use Rattle.tree.specs.Columns.{columns};
ghost use Rattle.tree.specs.Nodes.{own_of};
ghost use Rattle.tree.specs.WellFormed.{SoundTree, totals_right};
ghost use Rattle.space.specs.Rows.{rows_of, most_points};
ghost use Rattle.rows.specs.Lists.{near_work};
ghost use Rattle.lookup.specs.Batch.{points_outcome};
ghost use Rattle.near_pass.specs.Sums.{most_work, Weights};
ghost use Rattle.near_work.specs.Work.{weights, LeavesOnly, Cleared};
ghost use Rattle.near_work.specs.Answers.{room_check, work_answer, counts_left};

pub use listed::near_work;
use refusal::Refusal;
use space::Box;

// Copies what each node owns to the front of the counts, which are 0.
fn copy_own(own: &[usize], counts: &mut [usize])
    requires { (length own.now ≤ length counts.old) × (counts.old ≡ replicate (length counts.old) 0) }
    ensures { counts.new ≡ filled (length counts.old) own.now }
{
    // Not `copy_from_slice`: it would have the archive ask its caller for memmove.
    for i in 0..own.len() {
        counts[i] = own[i];
    }
}

// Counts the targets of each leaf, in counts that are 0; without targets the sources serve as targets.
pub fn fill_counts(
    b: Box,
    key: &[u64],
    own: &[usize],
    targets: &[f64],
    counts: &mut [usize],
) -> Result<(), Refusal>
    requires sound_tree { SoundTree b.axes key.now own.now × (rows_of b targets.now ≤ most_points) }
    requires key_in_bounds { (length key.now ≤ length counts.old) × (counts.old ≡ replicate (length counts.old) 0) }
    ensures value { result ≡ points_outcome b key.now targets.now }
    ensures counts_after { points_outcome b key.now targets.now ≡ accepted
        → counts.new ≡ filled (length counts.old) (map (weights b key.now own.now targets.now) key.now) }
{
    if targets.len() == 0 {
        copy_own(own, counts);
        return Ok(());
    }
    target_counts::count_targets(b, key, targets, counts)
}

// Clears the entries of nodes with children.
fn clear_inner(key: &[u64], counts: &mut [usize])
    requires { length key.now ≤ length counts.old }
    ensures { Cleared key.now counts.old counts.new }
{
    for i in 0..key.len() {
        if links::has_children(key, i) {
            counts[i] = 0;
        }
    }
}

// Near work by the counts of the leaves. The entries of nodes with children hold links while the tree is walked, and are 0 again then.
fn sum_up(axes: usize, key: &[u64], own: &[usize], total: &[usize], counts: &mut [usize]) -> u64
    requires sound_tree { SoundTree axes key.now own.now × (totals_right axes key.now own.now total.now ≡ true) }
    requires weights { Weights axes key.now counts.old × LeavesOnly key.now counts.old }
    ensures work { (result ≡ near_work axes key.now own.now (own_of key.now counts.old)) × (result ≤ most_work) }
    ensures counts { counts.new ≡ counts.old }
{
    links::link_nodes(key, total, counts);
    let work = near_pass::work_of_tree(axes, key, own, total, counts);
    clear_inner(key, counts);
    work
}

// The refusals that come before the targets are looked at, for so many numbers and so much room.
fn room_outcome(
    b: Box,
    key: &[u64],
    own: &[usize],
    begin: &[usize],
    total: &[usize],
    numbers: usize,
    room: usize,
) -> Result<(), Refusal>
    ensures { result ≡ room_check b (columns key.now own.now begin.now total.now) numbers room }
{
    lookup::shape_outcome(b, numbers)?;
    sourced::check_tree(b.axes, key, own, begin, total)?;
    if room < key.len() {
        return Err(Refusal::Room(8));
    }
    Ok(())
}

// Near work of any tree with targets, or with its sources as targets where there are none. The counts end as the targets of each node.
pub fn get_near_work(
    b: Box,
    key: &[u64],
    own: &[usize],
    begin: &[usize],
    total: &[usize],
    targets: &[f64],
    counts: &mut [usize],
) -> Result<u64, Refusal>
    ensures answer { result ≡ work_answer b (columns key.now own.now begin.now total.now) targets.now (length counts.old) }
    ensures counts { counts.new ≡ counts_left b (columns key.now own.now begin.now total.now) targets.now (length counts.old) }
    ensures bounded { IfOk result (λ n. n ≤ most_work) }
{
    let checked = room_outcome(b, key, own, begin, total, targets.len(), counts.len());
    slices::clear_usize(counts);
    checked?;
    if let Err(refusal) = fill_counts(b, key, own, targets, counts) {
        slices::clear_usize(counts);
        return Err(refusal);
    }
    Ok(sum_up(b.axes, key, own, total, counts))
}
