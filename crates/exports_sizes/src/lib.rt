#![tactic(auto)]

// How many nodes a build has, for C.
ghost use Rattle.std.specs.Prelude.{◌≡◌, length, replicate};
ghost use Rattle.build.specs.Asked.{asks_for, asks_on_grid};
ghost use Rattle.node_count.specs.Counts.{nodes_answer};
ghost use Rattle.refusal.specs.Outcome.{ending, answer_or};
ghost use Rattle.exports_keys.specs.Told.{told};
ghost use Rattle.exports_points.specs.Boxes.{box_at};
ghost use Rattle.exports_build.specs.Told.{grid_at};

use exports_keys::Ended;

// `order` is that of the expansions; `work` and `indices` are as long as in the build.
pub fn lohandema_count_nodes(
    centre: &[f64; 3],
    radius: f64,
    axes: usize,
    sources: &[f64],
    targets: &[f64],
    limit: usize,
    order: usize,
    keep: bool,
    refine: bool,
    work: &mut [u64],
    indices: &mut [usize],
    nodes: &mut usize,
) -> Ended
    ensures ended { result ≡ told (ending (nodes_answer (asks_for (box_at centre.now radius axes) sources.now targets.now limit order keep refine)
        work.old indices.old)) }
    ensures work { work.new ≡ replicate (length work.old) 0 }
    ensures indices { indices.new ≡ replicate (length indices.old) 0 }
    ensures nodes { nodes.new ≡ answer_or 0 (nodes_answer (asks_for (box_at centre.now radius axes) sources.now targets.now limit order keep refine)
        work.old indices.old) }
{
    let b = exports_points::box_at(centre, radius, axes);
    let counted = node_count::count_nodes(
        b, sources, targets, limit, order, keep, refine, work, indices,
    );
    exports_keys::tell(counted, 0, nodes)
}

// The targets are the points of a grid.
pub fn lohandema_count_nodes_on_grid(
    centre: &[f64; 3],
    radius: f64,
    axes: usize,
    sources: &[f64],
    origin: &[f64; 3],
    spacing: &[f64; 3],
    shape: &[usize; 3],
    limit: usize,
    order: usize,
    keep: bool,
    refine: bool,
    work: &mut [u64],
    indices: &mut [usize],
    nodes: &mut usize,
) -> Ended
    ensures ended { result ≡ told (ending (nodes_answer
        (asks_on_grid (box_at centre.now radius axes) sources.now (grid_at origin.now spacing.now shape.now) limit order keep refine)
        work.old indices.old)) }
    ensures work { work.new ≡ replicate (length work.old) 0 }
    ensures indices { indices.new ≡ replicate (length indices.old) 0 }
    ensures nodes { nodes.new ≡ answer_or 0 (nodes_answer
        (asks_on_grid (box_at centre.now radius axes) sources.now (grid_at origin.now spacing.now shape.now) limit order keep refine)
        work.old indices.old) }
{
    let b = exports_points::box_at(centre, radius, axes);
    let grid = exports_build::grid_at(origin, spacing, shape);
    let on_grid = node_count::count_nodes_on_grid(
        b, sources, grid, limit, order, keep, refine, work, indices,
    );
    exports_keys::tell(on_grid, 0, nodes)
}
