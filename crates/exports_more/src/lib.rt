#![tactic(auto)]

// One source more, for C.
ghost use Rattle.std.specs.Prelude.{◌≡◌, length, replicate};
ghost use Rattle.tree.specs.Columns.{columns};
ghost use Rattle.build.specs.Outcomes.{rooms};
ghost use Rattle.one_more.specs.More.{asks_more, more_answer, order_more, keys_more, own_more, begins_more, totals_more};
ghost use Rattle.refusal.specs.Outcome.{ending, answer_or};
ghost use Rattle.exports_keys.specs.Told.{told};
ghost use Rattle.exports_points.specs.Boxes.{box_at};
ghost use Rattle.exports_build.specs.Told.{no_tree};

use exports_keys::Ended;

// The tree that was built and its order column are read; those of the longer list are lent.
pub fn lohandema_add_source(
    centre: &[f64; 3],
    radius: f64,
    axes: usize,
    sources: &[f64],
    point: &[f64; 3],
    limit: usize,
    keep: bool,
    key: &[u64],
    own: &[usize],
    begin: &[usize],
    total: &[usize],
    indices: &[usize],
    work: &mut [u64],
    new_indices: &mut [usize],
    new_key: &mut [u64],
    new_own: &mut [usize],
    new_begin: &mut [usize],
    new_total: &mut [usize],
    nodes: &mut usize,
    depth: &mut u64,
) -> Ended
    ensures ended { result ≡ told (ending (more_answer
        (asks_more (box_at centre.now radius axes) sources.now point.now limit keep
        (columns key.now own.now begin.now total.now) indices.now)
        (rooms work.old new_indices.old new_key.old new_own.old new_begin.old new_total.old))) }
    ensures work { work.new ≡ replicate (length work.old) 0 }
    ensures new_indices { new_indices.new ≡ order_more
        (asks_more (box_at centre.now radius axes) sources.now point.now limit keep
        (columns key.now own.now begin.now total.now) indices.now)
        (rooms work.old new_indices.old new_key.old new_own.old new_begin.old new_total.old) }
    ensures new_key { new_key.new ≡ keys_more
        (asks_more (box_at centre.now radius axes) sources.now point.now limit keep
        (columns key.now own.now begin.now total.now) indices.now)
        (rooms work.old new_indices.old new_key.old new_own.old new_begin.old new_total.old) }
    ensures new_own { new_own.new ≡ own_more
        (asks_more (box_at centre.now radius axes) sources.now point.now limit keep
        (columns key.now own.now begin.now total.now) indices.now)
        (rooms work.old new_indices.old new_key.old new_own.old new_begin.old new_total.old) }
    ensures new_begin { new_begin.new ≡ begins_more
        (asks_more (box_at centre.now radius axes) sources.now point.now limit keep
        (columns key.now own.now begin.now total.now) indices.now)
        (rooms work.old new_indices.old new_key.old new_own.old new_begin.old new_total.old) }
    ensures new_total { new_total.new ≡ totals_more
        (asks_more (box_at centre.now radius axes) sources.now point.now limit keep
        (columns key.now own.now begin.now total.now) indices.now)
        (rooms work.old new_indices.old new_key.old new_own.old new_begin.old new_total.old) }
    ensures nodes { nodes.new ≡ (answer_or no_tree (more_answer
        (asks_more (box_at centre.now radius axes) sources.now point.now limit keep
        (columns key.now own.now begin.now total.now) indices.now)
        (rooms work.old new_indices.old new_key.old new_own.old new_begin.old new_total.old))).nodes }
    ensures depth { depth.new ≡ (answer_or no_tree (more_answer
        (asks_more (box_at centre.now radius axes) sources.now point.now limit keep
        (columns key.now own.now begin.now total.now) indices.now)
        (rooms work.old new_indices.old new_key.old new_own.old new_begin.old new_total.old))).depth }
{
    let b = exports_points::box_at(centre, radius, axes);
    let place = *point;
    let answer = one_more::add_source(
        b,
        sources,
        place,
        limit,
        keep,
        key,
        own,
        begin,
        total,
        indices,
        work,
        new_indices,
        new_key,
        new_own,
        new_begin,
        new_total,
    );
    exports_build::tell_built(answer, nodes, depth)
}
