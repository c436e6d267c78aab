// The sum checks of a leaf and of a survey, the check of lists and the test of an order column for C.
ghost use Rattle.std.specs.Prelude.{◌≡◌, false, length, replicate};
ghost use Rattle.tree.specs.Columns.{columns};
ghost use Rattle.sums.specs.Arrangement.{arranges};
ghost use Rattle.list_check.specs.Answers.{right_answer};
ghost use Rattle.sum_check.specs.Answers.{sum_answer};
ghost use Rattle.survey_check.specs.Answers.{survey_answer};
ghost use Rattle.refusal.specs.Outcome.{ending, answer_or};
ghost use Rattle.exports_keys.specs.Told.{told};
ghost use Rattle.exports_sums.specs.Told.{no_sums, no_tally};

use exports_keys::Ended;

// Whether the order column has each index below the total once.
#[unsafe(no_mangle)]
pub extern "C" fn lohandema_is_arrangement(indices: &[usize], total: usize) -> bool
    ensures { result ≡ arranges indices.now total }
{
    exports_sums::lohandema_is_arrangement(indices, total)
}

// Whether the lists are the tree's.
#[unsafe(no_mangle)]
pub extern "C" fn lohandema_lists_right(
    axes: usize,
    key: &[u64],
    own: &[usize],
    begin: &[usize],
    total: &[usize],
    u_starts: &[usize],
    u_keys: &[u64],
    v_starts: &[usize],
    v_keys: &[u64],
    right: &mut bool,
) -> Ended
    ensures ended { result ≡ told (ending (right_answer axes (columns key.now own.now begin.now total.now)
        u_starts.now u_keys.now v_starts.now v_keys.now)) }
    ensures right { right.new ≡ answer_or false (right_answer axes (columns key.now own.now begin.now total.now)
        u_starts.now u_keys.now v_starts.now v_keys.now) }
{
    exports_sums::lohandema_lists_right(
        axes, key, own, begin, total, u_starts, u_keys, v_starts, v_keys, right,
    )
}

// The near sum and the far sum of a leaf's readings, and the number of additions.
#[unsafe(no_mangle)]
pub extern "C" fn lohandema_sum_check(
    axes: usize,
    key: &[u64],
    own: &[usize],
    begin: &[usize],
    total: &[usize],
    indices: &[usize],
    readings: &[i64],
    u_starts: &[usize],
    u_keys: &[u64],
    v_starts: &[usize],
    v_keys: &[u64],
    node: usize,
    near: &mut i64,
    far: &mut i64,
    additions: &mut usize,
) -> Ended
    ensures ended { result ≡ told (ending (sum_answer axes (columns key.now own.now begin.now total.now)
        indices.now readings.now node u_starts.now u_keys.now v_starts.now v_keys.now)) }
    ensures near { near.new ≡ (answer_or no_sums (sum_answer axes (columns key.now own.now begin.now total.now)
        indices.now readings.now node u_starts.now u_keys.now v_starts.now v_keys.now)).near }
    ensures far { far.new ≡ (answer_or no_sums (sum_answer axes (columns key.now own.now begin.now total.now)
        indices.now readings.now node u_starts.now u_keys.now v_starts.now v_keys.now)).far }
    ensures additions { additions.new ≡ (answer_or no_sums (sum_answer axes (columns key.now own.now begin.now total.now)
        indices.now readings.now node u_starts.now u_keys.now v_starts.now v_keys.now)).additions }
{
    exports_sums::lohandema_sum_check(
        axes, key, own, begin, total, indices, readings, u_starts, u_keys, v_starts, v_keys, node,
        near, far, additions,
    )
}

// How many leaves' near and far sum together are the plain sum of all readings, and the additions of all leaves.
#[unsafe(no_mangle)]
pub extern "C" fn lohandema_check_sums(
    axes: usize,
    key: &[u64],
    own: &[usize],
    begin: &[usize],
    total: &[usize],
    indices: &[usize],
    readings: &[i64],
    u_starts: &[usize],
    u_keys: &[u64],
    v_starts: &[usize],
    v_keys: &[u64],
    sums: &mut [u64],
    leaves: &mut usize,
    additions: &mut usize,
) -> Ended
    ensures ended { result ≡ told (ending (survey_answer axes (columns key.now own.now begin.now total.now)
        indices.now readings.now u_starts.now u_keys.now v_starts.now v_keys.now
        (length sums.old))) }
    ensures leaves { leaves.new ≡ (answer_or no_tally (survey_answer axes (columns key.now own.now begin.now total.now)
        indices.now readings.now u_starts.now u_keys.now v_starts.now v_keys.now
        (length sums.old))).leaves }
    ensures additions { additions.new ≡ (answer_or no_tally (survey_answer axes (columns key.now own.now begin.now total.now)
        indices.now readings.now u_starts.now u_keys.now v_starts.now v_keys.now
        (length sums.old))).additions }
    ensures left { sums.new ≡ replicate (length sums.old) 0 }
{
    exports_sums::lohandema_check_sums(
        axes, key, own, begin, total, indices, readings, u_starts, u_keys, v_starts, v_keys, sums,
        leaves, additions,
    )
}
