// The build for C.
ghost use Rattle.std.specs.Prelude.{◌≡◌, length, replicate};
ghost use Rattle.build.specs.Asked.{asks_for, asks_on_grid};
ghost use Rattle.build.specs.Outcomes.{rooms, build_answer, order_left, keys_left, own_left, begins_left, totals_left};
ghost use Rattle.refusal.specs.Outcome.{ending, answer_or};
ghost use Rattle.exports_keys.specs.Told.{told};
ghost use Rattle.exports_points.specs.Boxes.{box_at};
ghost use Rattle.exports_build.specs.Told.{grid_at, no_tree};

use exports_keys::Ended;

// `order` is that of the expansions; the order column is `indices`.
#[unsafe(no_mangle)]
pub extern "C" fn lohandema_build_tree(
    centre: &[f64; 3],
    radius: f64,
    axes: usize,
    sources: &[f64],
    targets: &[f64],
    limit: usize,
    order: usize,
    keep: bool,
    refine: bool,
    work: &mut [u64],
    indices: &mut [usize],
    key: &mut [u64],
    own: &mut [usize],
    begin: &mut [usize],
    total: &mut [usize],
    nodes: &mut usize,
    depth: &mut u64,
) -> Ended
    ensures ended { result ≡ told (ending (build_answer (asks_for (box_at centre.now radius axes) sources.now targets.now limit order keep refine)
        (rooms work.old indices.old key.old own.old begin.old total.old))) }
    ensures work { work.new ≡ replicate (length work.old) 0 }
    ensures indices { indices.new ≡ order_left (asks_for (box_at centre.now radius axes) sources.now targets.now limit order keep refine)
        (rooms work.old indices.old key.old own.old begin.old total.old) }
    ensures key { key.new ≡ keys_left (asks_for (box_at centre.now radius axes) sources.now targets.now limit order keep refine)
        (rooms work.old indices.old key.old own.old begin.old total.old) }
    ensures own { own.new ≡ own_left (asks_for (box_at centre.now radius axes) sources.now targets.now limit order keep refine)
        (rooms work.old indices.old key.old own.old begin.old total.old) }
    ensures begin { begin.new ≡ begins_left (asks_for (box_at centre.now radius axes) sources.now targets.now limit order keep refine)
        (rooms work.old indices.old key.old own.old begin.old total.old) }
    ensures total { total.new ≡ totals_left (asks_for (box_at centre.now radius axes) sources.now targets.now limit order keep refine)
        (rooms work.old indices.old key.old own.old begin.old total.old) }
    ensures nodes { nodes.new ≡ (answer_or no_tree (build_answer (asks_for (box_at centre.now radius axes) sources.now targets.now limit order keep refine)
        (rooms work.old indices.old key.old own.old begin.old total.old))).nodes }
    ensures depth { depth.new ≡ (answer_or no_tree (build_answer (asks_for (box_at centre.now radius axes) sources.now targets.now limit order keep refine)
        (rooms work.old indices.old key.old own.old begin.old total.old))).depth }
{
    exports_build::lohandema_build_tree(
        centre, radius, axes, sources, targets, limit, order, keep, refine, work, indices, key,
        own, begin, total, nodes, depth,
    )
}

// The targets are the points of a grid.
#[unsafe(no_mangle)]
pub extern "C" fn lohandema_build_tree_on_grid(
    centre: &[f64; 3],
    radius: f64,
    axes: usize,
    sources: &[f64],
    origin: &[f64; 3],
    spacing: &[f64; 3],
    shape: &[usize; 3],
    limit: usize,
    order: usize,
    keep: bool,
    refine: bool,
    work: &mut [u64],
    indices: &mut [usize],
    key: &mut [u64],
    own: &mut [usize],
    begin: &mut [usize],
    total: &mut [usize],
    nodes: &mut usize,
    depth: &mut u64,
) -> Ended
    ensures ended { result ≡ told (ending (build_answer
        (asks_on_grid (box_at centre.now radius axes) sources.now (grid_at origin.now spacing.now shape.now) limit order keep refine)
        (rooms work.old indices.old key.old own.old begin.old total.old))) }
    ensures work { work.new ≡ replicate (length work.old) 0 }
    ensures indices { indices.new ≡ order_left
        (asks_on_grid (box_at centre.now radius axes) sources.now (grid_at origin.now spacing.now shape.now) limit order keep refine)
        (rooms work.old indices.old key.old own.old begin.old total.old) }
    ensures key { key.new ≡ keys_left
        (asks_on_grid (box_at centre.now radius axes) sources.now (grid_at origin.now spacing.now shape.now) limit order keep refine)
        (rooms work.old indices.old key.old own.old begin.old total.old) }
    ensures own { own.new ≡ own_left
        (asks_on_grid (box_at centre.now radius axes) sources.now (grid_at origin.now spacing.now shape.now) limit order keep refine)
        (rooms work.old indices.old key.old own.old begin.old total.old) }
    ensures begin { begin.new ≡ begins_left
        (asks_on_grid (box_at centre.now radius axes) sources.now (grid_at origin.now spacing.now shape.now) limit order keep refine)
        (rooms work.old indices.old key.old own.old begin.old total.old) }
    ensures total { total.new ≡ totals_left
        (asks_on_grid (box_at centre.now radius axes) sources.now (grid_at origin.now spacing.now shape.now) limit order keep refine)
        (rooms work.old indices.old key.old own.old begin.old total.old) }
    ensures nodes { nodes.new ≡ (answer_or no_tree (build_answer
        (asks_on_grid (box_at centre.now radius axes) sources.now (grid_at origin.now spacing.now shape.now) limit order keep refine)
        (rooms work.old indices.old key.old own.old begin.old total.old))).nodes }
    ensures depth { depth.new ≡ (answer_or no_tree (build_answer
        (asks_on_grid (box_at centre.now radius axes) sources.now (grid_at origin.now spacing.now shape.now) limit order keep refine)
        (rooms work.old indices.old key.old own.old begin.old total.old))).depth }
{
    exports_build::lohandema_build_tree_on_grid(
        centre, radius, axes, sources, origin, spacing, shape, limit, order, keep, refine, work,
        indices, key, own, begin, total, nodes, depth,
    )
}
