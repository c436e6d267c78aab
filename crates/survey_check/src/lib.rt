#![tactic(auto)]

// The sum check of a whole survey: every leaf's near and far readings are added up and compared with the plain sum of all. Document 02, order 12.
// The checks run once; a cell's sum takes two reads; far sums ride on the path from the root.
ghost use Rattle.std.specs.Prelude.{◌≡◌, ◌&&◌, ◌+◌, ◌≤◌, ◌<◌, min, length, get_or, replicate};
ghost use Rattle.slices.specs.Lists.{bit};
ghost use Rattle.tree.specs.Columns.{columns};
ghost use Rattle.rows.specs.Written.{row_at};
ghost use Rattle.sums.specs.Right.{StartsRight};
ghost use Rattle.row_sums.specs.Readings.{sources_in};
ghost use Rattle.cell_sums.specs.Lifted.{row_lifted, Before};
ghost use Rattle.cell_sums.specs.Kept.{Kept};
ghost use Rattle.survey_check.specs.Pass.{Passed, RowAsked, FarKnown};
ghost use Rattle.survey_check.specs.Answers.{most_additions, agrees, additions_at, agreeing, all_additions, survey_check, survey_answer, AllAgree};

use cell_sums::Part;
use refusal::Refusal;

// How many leaves agree, and their additions.
#[derive(Clone, Copy)]
pub struct Tally {
    pub leaves: usize,
    pub additions: usize,
}

// What the cells in a node's row have together.
fn node_part(
    axes: usize,
    key: &[u64],
    total: &[usize],
    begin: &[usize],
    indices: &[usize],
    readings: &[i64],
    sums: &[u64],
    names: &mut [u64],
    held: &mut [u64],
    counts: &mut [usize],
    starts: &[usize],
    flat: &[u64],
    node: usize,
) -> Part
    requires row_asked { RowAsked axes key.now total.now begin.now indices.now readings.now sums.now starts.now flat.now node }
    requires kept_2 { Kept key.now total.now begin.now indices.now readings.now names.old held.old counts.old }
    ensures sum { result.sum ≡ row_lifted key.now total.now begin.now indices.now readings.now
        (row_at starts.now flat.now node) }
    ensures count { result.count ≡ sources_in key.now total.now (row_at starts.now flat.now node) }
    ensures kept { Kept key.now total.now begin.now indices.now readings.now names.new
        held.new counts.new }
{
    let from = starts[node];
    let to = starts[node + 1];
    cell_sums::row_part(
        axes,
        key,
        total,
        begin,
        indices,
        readings,
        sums,
        names,
        held,
        counts,
        &flat[from..to],
    )
}

// How many cells a node's row lists.
fn row_length(key: &[u64], starts: &[usize], flat: &[u64], node: usize) -> usize
    requires { StartsRight key.now starts.now flat.now × (node < length key.now) }
    ensures { result ≡ length (row_at starts.now flat.now node) }
{
    starts[node + 1] - starts[node]
}

// The additions so far with those of one more leaf, told no farther than the largest number.
fn with_additions(told: usize, more: usize) -> usize
    requires { (told ≤ most_additions) × (more ≤ 2097152) }
    ensures { result ≡ min (told + more) most_additions }
{
    let both = told + more;
    if both < 9223372036854775807 {
        return both;
    }
    9223372036854775807
}

// One node: 1 if it is a leaf whose near sum, with what is far of it, is the plain sum, and its additions if it is a leaf.
fn leaf_tally(
    axes: usize,
    key: &[u64],
    own: &[usize],
    begin: &[usize],
    total: &[usize],
    indices: &[usize],
    readings: &[i64],
    sums: &[u64],
    names: &mut [u64],
    held: &mut [u64],
    counts: &mut [usize],
    u_starts: &[usize],
    u_keys: &[u64],
    v_starts: &[usize],
    v_keys: &[u64],
    node: usize,
    met: u64,
    listed: usize,
) -> Tally
    requires passed { Passed axes key.now own.now begin.now total.now readings.now indices.now u_starts.now u_keys.now v_starts.now v_keys.now }
    requires before { Before indices.now readings.now sums.now × FarKnown axes key.now total.now begin.now indices.now readings.now v_starts.now
        v_keys.now node met listed }
    requires kept_2 { Kept key.now total.now begin.now indices.now readings.now names.old held.old counts.old }
    ensures leaves { result.leaves ≡ bit (agrees axes (columns key.now own.now begin.now total.now)
        indices.now readings.now (get_or key.now node 0)) }
    ensures additions { result.additions ≡ additions_at axes (columns key.now own.now begin.now total.now)
        indices.now readings.now (get_or key.now node 0) }
    ensures few { result.additions ≤ 2097152 }
    ensures kept { Kept key.now total.now begin.now indices.now readings.now names.new
        held.new counts.new }
{
    if !tree::is_leaf(axes, key, node) {
        return Tally {
            leaves: 0,
            additions: 0,
        };
    }
    let near = node_part(
        axes, key, total, begin, indices, readings, sums, names, held, counts, u_starts, u_keys,
        node,
    );
    let additions = near.count + listed;
    if near.sum + met == sums[indices.len()] {
        return Tally {
            leaves: 1,
            additions,
        };
    }
    Tally {
        leaves: 0,
        additions,
    }
}

// All leaves, from the root on. What is far rides on the path, one sum and one count of cells for each level.
fn all_leaves(
    axes: usize,
    key: &[u64],
    own: &[usize],
    begin: &[usize],
    total: &[usize],
    indices: &[usize],
    readings: &[i64],
    sums: &[u64],
    u_starts: &[usize],
    u_keys: &[u64],
    v_starts: &[usize],
    v_keys: &[u64],
) -> Tally
    requires passed { Passed axes key.now own.now begin.now total.now readings.now indices.now u_starts.now u_keys.now v_starts.now v_keys.now }
    requires before { Before indices.now readings.now sums.now }
    ensures leaves { result.leaves ≡ agreeing axes (columns key.now own.now begin.now total.now)
        indices.now readings.now }
    ensures additions { result.additions ≡ min (all_additions axes (columns key.now own.now begin.now total.now)
        indices.now readings.now) most_additions }
{
    let mut names = [32767u64; 1536];
    let mut held = [0u64; 1536];
    let mut counts = [0usize; 1536];
    let mut far = [0u64; 17];
    let mut cells = [0usize; 17];
    let mut leaves: usize = 0;
    let mut additions: usize = 0;
    for node in 1..key.len() {
        let level = (key[node] % 32768) as usize;
        let row = node_part(
            axes,
            key,
            total,
            begin,
            indices,
            readings,
            sums,
            &mut names,
            &mut held,
            &mut counts,
            v_starts,
            v_keys,
            node,
        );
        let met = far[level - 1] + row.sum;
        let listed = cells[level - 1] + row_length(key, v_starts, v_keys, node);
        far[level] = met;
        cells[level] = listed;
        let tally = leaf_tally(
            axes,
            key,
            own,
            begin,
            total,
            indices,
            readings,
            sums,
            &mut names,
            &mut held,
            &mut counts,
            u_starts,
            u_keys,
            v_starts,
            v_keys,
            node,
            met,
            listed,
        );
        leaves += tally.leaves;
        additions = with_additions(additions, tally.additions);
    }
    Tally { leaves, additions }
}

// The refusals of all arguments, where so much room is lent.
fn survey_outcome(
    axes: usize,
    key: &[u64],
    own: &[usize],
    begin: &[usize],
    total: &[usize],
    indices: &[usize],
    readings: &[i64],
    u_starts: &[usize],
    u_keys: &[u64],
    v_starts: &[usize],
    v_keys: &[u64],
    room: usize,
) -> Result<(), Refusal>
    ensures { result ≡ survey_check axes (columns key.now own.now begin.now total.now) indices.now
        readings.now u_starts.now u_keys.now v_starts.now v_keys.now room }
{
    sum_check::readings_outcome(axes, key, own, begin, total, readings)?;
    if !sum_check::is_built(
        axes, key, own, begin, total, indices, u_starts, u_keys, v_starts, v_keys,
    ) {
        return Err(Refusal::NotBuilt);
    }
    if total[0] < room {
        return Ok(());
    }
    Err(Refusal::Room(1))
}

// The same with the leaves' sums; the lent slice may hold anything after it.
fn survey(
    axes: usize,
    key: &[u64],
    own: &[usize],
    begin: &[usize],
    total: &[usize],
    indices: &[usize],
    readings: &[i64],
    u_starts: &[usize],
    u_keys: &[u64],
    v_starts: &[usize],
    v_keys: &[u64],
    sums: &mut [u64],
) -> Result<Tally, Refusal>
    ensures answer { result ≡ survey_answer axes (columns key.now own.now begin.now total.now) indices.now
        readings.now u_starts.now u_keys.now v_starts.now v_keys.now (length sums.old) }
    ensures all { AllAgree axes (columns key.now own.now begin.now total.now) result }
{
    survey_outcome(
        axes,
        key,
        own,
        begin,
        total,
        indices,
        readings,
        u_starts,
        u_keys,
        v_starts,
        v_keys,
        sums.len(),
    )?;
    cell_sums::fill_sums(indices, readings, sums);
    Ok(all_leaves(
        axes, key, own, begin, total, indices, readings, sums, u_starts, u_keys, v_starts, v_keys,
    ))
}

// How many leaves' near and far sum together are the plain sum of all readings: all of them. And the additions of all leaves.
pub fn check_sums(
    axes: usize,
    key: &[u64],
    own: &[usize],
    begin: &[usize],
    total: &[usize],
    indices: &[usize],
    readings: &[i64],
    u_starts: &[usize],
    u_keys: &[u64],
    v_starts: &[usize],
    v_keys: &[u64],
    sums: &mut [u64],
) -> Result<Tally, Refusal>
    ensures answer { result ≡ survey_answer axes (columns key.now own.now begin.now total.now) indices.now
        readings.now u_starts.now u_keys.now v_starts.now v_keys.now (length sums.old) }
    ensures all { AllAgree axes (columns key.now own.now begin.now total.now) result }
    ensures left { sums.new ≡ replicate (length sums.old) 0 }
{
    let answer = survey(
        axes, key, own, begin, total, indices, readings, u_starts, u_keys, v_starts, v_keys, sums,
    );
    slices::clear(sums);
    answer
}
