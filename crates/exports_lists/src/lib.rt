#![tactic(auto)]

// The list call, the sizes of its lists and near work for C.
ghost use Rattle.std.specs.Prelude.{◌≡◌, length, replicate};
ghost use Rattle.tree.specs.Columns.{columns};
ghost use Rattle.interaction.specs.Answers.{lists_answer, u_starts_left, u_keys_left, v_starts_left, v_keys_left};
ghost use Rattle.list_sizes.specs.Sizes.{sizes_answer};
ghost use Rattle.near_work.specs.Answers.{work_answer, counts_left};
ghost use Rattle.exports_points.specs.Boxes.{box_at};
ghost use Rattle.refusal.specs.Outcome.{ending, answer_or};
ghost use Rattle.exports_keys.specs.Told.{told};
ghost use Rattle.exports_lists.specs.Told.{no_sizes};

use exports_keys::Ended;
use node_rows::Sizes;
use refusal::Refusal;

// Tells how many keys the two lists have.
fn tell_sizes(answer: Result<Sizes, Refusal>, u: &mut usize, v: &mut usize) -> Ended
    ensures ended { result ≡ told (ending answer) }
    ensures u { u.new ≡ (answer_or no_sizes answer).u }
    ensures v { v.new ≡ (answer_or no_sizes answer).v }
{
    let none = Sizes { u: 0, v: 0 };
    let mut sizes = none;
    let ended = exports_keys::tell(answer, none, &mut sizes);
    *u = sizes.u;
    *v = sizes.v;
    ended
}

pub fn lohandema_get_interaction_lists(
    axes: usize,
    key: &[u64],
    own: &[usize],
    begin: &[usize],
    total: &[usize],
    u_starts: &mut [usize],
    u_keys: &mut [u64],
    v_starts: &mut [usize],
    v_keys: &mut [u64],
    u: &mut usize,
    v: &mut usize,
) -> Ended
    ensures ended { result ≡ told (ending (lists_answer axes (columns key.now own.now begin.now total.now)
        (length u_starts.old) (length u_keys.old) (length v_starts.old) (length v_keys.old))) }
    ensures u_starts { u_starts.new ≡ u_starts_left axes (columns key.now own.now begin.now total.now)
        (length u_starts.old) (length u_keys.old) (length v_starts.old) (length v_keys.old) }
    ensures u_keys { u_keys.new ≡ u_keys_left axes (columns key.now own.now begin.now total.now)
        (length u_starts.old) (length u_keys.old) (length v_starts.old) (length v_keys.old) }
    ensures v_starts { v_starts.new ≡ v_starts_left axes (columns key.now own.now begin.now total.now)
        (length u_starts.old) (length u_keys.old) (length v_starts.old) (length v_keys.old) }
    ensures v_keys { v_keys.new ≡ v_keys_left axes (columns key.now own.now begin.now total.now)
        (length u_starts.old) (length u_keys.old) (length v_starts.old) (length v_keys.old) }
    ensures u { u.new ≡ (answer_or no_sizes (lists_answer axes (columns key.now own.now begin.now total.now)
        (length u_starts.old) (length u_keys.old) (length v_starts.old) (length v_keys.old))).u }
    ensures v { v.new ≡ (answer_or no_sizes (lists_answer axes (columns key.now own.now begin.now total.now)
        (length u_starts.old) (length u_keys.old) (length v_starts.old) (length v_keys.old))).v }
{
    let answer = interaction::get_interaction_lists(
        axes, key, own, begin, total, u_starts, u_keys, v_starts, v_keys,
    );
    tell_sizes(answer, u, v)
}

// How many keys both lists have, with no list.
pub fn lohandema_get_list_sizes(
    axes: usize,
    key: &[u64],
    own: &[usize],
    begin: &[usize],
    total: &[usize],
    work: &mut [usize],
    row: &mut [u64],
    u: &mut usize,
    v: &mut usize,
) -> Ended
    ensures ended { result ≡ told (ending (sizes_answer axes (columns key.now own.now begin.now total.now)
        (length work.old) (length row.old))) }
    ensures work { work.new ≡ replicate (length work.old) 0 }
    ensures row { row.new ≡ replicate (length row.old) 0 }
    ensures u { u.new ≡ (answer_or no_sizes (sizes_answer axes (columns key.now own.now begin.now total.now)
        (length work.old) (length row.old))).u }
    ensures v { v.new ≡ (answer_or no_sizes (sizes_answer axes (columns key.now own.now begin.now total.now)
        (length work.old) (length row.old))).v }
{
    let answer = list_sizes::get_list_sizes(axes, key, own, begin, total, work, row);
    tell_sizes(answer, u, v)
}

// Near work of a tree with targets, or with its sources as targets where there are none; the counts are left as the targets of each node.
pub fn lohandema_get_near_work(
    centre: &[f64; 3],
    radius: f64,
    axes: usize,
    key: &[u64],
    own: &[usize],
    begin: &[usize],
    total: &[usize],
    targets: &[f64],
    counts: &mut [usize],
    work: &mut u64,
) -> Ended
    ensures ended { result ≡ told (ending (work_answer (box_at centre.now radius axes) (columns key.now own.now begin.now total.now)
        targets.now (length counts.old))) }
    ensures counts { counts.new ≡ counts_left (box_at centre.now radius axes) (columns key.now own.now begin.now total.now)
        targets.now (length counts.old) }
    ensures work { work.new ≡ answer_or 0 (work_answer (box_at centre.now radius axes) (columns key.now own.now begin.now total.now)
        targets.now (length counts.old)) }
{
    let b = exports_points::box_at(centre, radius, axes);
    let answer = near_work::get_near_work(b, key, own, begin, total, targets, counts);
    exports_keys::tell(answer, 0, work)
}
