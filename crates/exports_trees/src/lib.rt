#![tactic(auto)]

// The calls on trees for C: columns go in as slices, rows come out in lent ones.
ghost use Rattle.std.specs.Prelude.{◌≡◌, ◌&&◌, ◌*◌, ◌≤◌, length, take, drop};
ghost use Rattle.morton.specs.Keys.{axes_known};
ghost use Rattle.tree.specs.Columns.{columns};
ghost use Rattle.tree.specs.Order.{depth_of};
ghost use Rattle.tree.specs.WellFormed.{well_formed};
ghost use Rattle.tree.specs.Sources.{leaf_sources, cell_sources};
ghost use Rattle.leaf_points.specs.Grouping.{group_outcome, group_starts_left, group_indices_left};
ghost use Rattle.space.specs.Rows.{rows_of};
ghost use Rattle.lookup.specs.Batch.{lookup_answer, lookup_left};
ghost use Rattle.lookup.specs.Single.{point_to_leaf};
ghost use Rattle.sourced.specs.Answers.{cells_answer, cells_left};
ghost use Rattle.refusal.specs.Outcome.{ending, answer_or};
ghost use Rattle.exports_keys.specs.Told.{told};
ghost use Rattle.exports_points.specs.Boxes.{box_at};
ghost use Rattle.exports_trees.specs.Told.{no_leaf, part_start};

use exports_keys::Ended;
use lookup::Holder;

pub fn lohandema_is_well_formed(
    axes: usize,
    key: &[u64],
    own: &[usize],
    begin: &[usize],
    total: &[usize],
) -> bool
    ensures { result ≡ (axes_known axes && well_formed axes key.now own.now begin.now total.now) }
{
    tree::is_well_formed(axes, key, own, begin, total)
}

pub fn lohandema_depth_of(key: &[u64]) -> u64
    ensures { result ≡ depth_of key.now }
{
    tree::depth_of(key)
}

// A part of the order column, as where it starts and how long it is; an empty part starts at 0.
fn part_at(
    counts: &[usize],
    begin: &[usize],
    order: &[usize],
    node: usize,
    start: &mut usize,
) -> usize
    ensures length { result ≡ length (leaf_sources counts.now begin.now order.now node) }
    ensures part { take result (drop start.new order.now) ≡ leaf_sources counts.now begin.now order.now node }
    ensures start { start.new ≡ part_start counts.now begin.now order.now node }
{
    let part = tree::leaf_sources(counts, begin, order, node);
    let count = part.len();
    if count == 0 {
        *start = 0;
        return 0;
    }
    *start = begin[node];
    count
}

// A leaf's part of the order column: what it owns.
pub fn lohandema_leaf_sources(
    own: &[usize],
    begin: &[usize],
    order: &[usize],
    node: usize,
    start: &mut usize,
) -> usize
    ensures length { result ≡ length (leaf_sources own.now begin.now order.now node) }
    ensures part { take result (drop start.new order.now) ≡ leaf_sources own.now begin.now order.now node }
    ensures start { start.new ≡ part_start own.now begin.now order.now node }
{
    part_at(own, begin, order, node, start)
}

// Any cell's part of the order column: all sources in it.
pub fn lohandema_cell_sources(
    total: &[usize],
    begin: &[usize],
    order: &[usize],
    node: usize,
    start: &mut usize,
) -> usize
    ensures length { result ≡ length (cell_sources total.now begin.now order.now node) }
    ensures part { take result (drop start.new order.now) ≡ cell_sources total.now begin.now order.now node }
    ensures start { start.new ≡ part_start total.now begin.now order.now node }
{
    part_at(total, begin, order, node, start)
}

pub fn lohandema_points_to_keys(
    centre: &[f64; 3],
    radius: f64,
    axes: usize,
    key: &[u64],
    own: &[usize],
    begin: &[usize],
    total: &[usize],
    points: &[f64],
    output: &mut [u64],
    steps: &mut usize,
) -> Ended
    ensures ended { result ≡ told (ending (lookup_answer (box_at centre.now radius axes) (columns key.now own.now begin.now total.now)
        points.now (length output.old))) }
    ensures output { output.new ≡ lookup_left (box_at centre.now radius axes) (columns key.now own.now begin.now total.now)
        points.now (length output.old) }
    ensures steps { steps.new ≡ answer_or 0 (lookup_answer (box_at centre.now radius axes) (columns key.now own.now begin.now total.now)
        points.now (length output.old)) }
    ensures few { steps.new ≤ 15 * rows_of (box_at centre.now radius axes) points.now }
{
    let b = exports_points::box_at(centre, radius, axes);
    let answer = lookup::points_to_keys(b, key, own, begin, total, points, output);
    exports_keys::tell(answer, 0, steps)
}

// The leaf that holds one point, and the steps to it.
pub fn lohandema_point_to_leaf(
    centre: &[f64; 3],
    radius: f64,
    axes: usize,
    key: &[u64],
    own: &[usize],
    begin: &[usize],
    total: &[usize],
    point: &[f64; 3],
    leaf: &mut u64,
    steps: &mut u64,
) -> Ended
    ensures ended { result ≡ told (ending (point_to_leaf (box_at centre.now radius axes)
        (columns key.now own.now begin.now total.now) point.now)) }
    ensures leaf { leaf.new ≡ (answer_or no_leaf (point_to_leaf (box_at centre.now radius axes)
        (columns key.now own.now begin.now total.now) point.now)).key }
    ensures steps { steps.new ≡ (answer_or no_leaf (point_to_leaf (box_at centre.now radius axes)
        (columns key.now own.now begin.now total.now) point.now)).steps }
    ensures few { steps.new ≤ 15 }
{
    let b = exports_points::box_at(centre, radius, axes);
    let place = *point;
    let none = Holder { key: 0, steps: 0 };
    let mut found = none;
    let answer = lookup::point_to_leaf(b, key, own, begin, total, place);
    let ended = exports_keys::tell(answer, none, &mut found);
    *leaf = found.key;
    *steps = found.steps;
    ended
}

pub fn lohandema_get_points_to_leaves_map(
    axes: usize,
    key: &[u64],
    own: &[usize],
    begin: &[usize],
    total: &[usize],
    points: &[u64],
    starts: &mut [usize],
    indices: &mut [usize],
) -> Ended
    ensures ended { result ≡ told (group_outcome axes (columns key.now own.now begin.now total.now)
        points.now (length starts.old) (length indices.old)) }
    ensures starts { starts.new ≡ group_starts_left axes (columns key.now own.now begin.now total.now)
        points.now (length starts.old) (length indices.old) }
    ensures indices { indices.new ≡ group_indices_left axes (columns key.now own.now begin.now total.now)
        points.now (length starts.old) (length indices.old) }
{
    let outcome = leaf_points::get_points_to_leaves_map(
        axes, key, own, begin, total, points, starts, indices,
    );
    exports_keys::end_of(outcome)
}

pub fn lohandema_get_sourced_cells(
    axes: usize,
    key: &[u64],
    own: &[usize],
    begin: &[usize],
    total: &[usize],
    cells: &mut [u64],
    count: &mut usize,
) -> Ended
    ensures ended { result ≡ told (ending (cells_answer axes (columns key.now own.now begin.now total.now) (length cells.old))) }
    ensures cells { cells.new ≡ cells_left axes (columns key.now own.now begin.now total.now) (length cells.old) }
    ensures count { count.new ≡ answer_or 0 (cells_answer axes (columns key.now own.now begin.now total.now) (length cells.old)) }
{
    let answer = sourced::get_sourced_cells(axes, key, own, begin, total, cells);
    exports_keys::tell(answer, 0, count)
}
