#![tactic(auto)]

// How many nodes a build has, with no node column: the tree is grown as in a build, and its nodes are counted and forgotten.
ghost use Rattle.std.specs.Prelude.{◌≡◌, length, replicate};
ghost use Rattle.build.specs.Asked.{asks_at, asks_for, asks_on_grid};
ghost use Rattle.node_count.specs.Counts.{nodes_answer};

use grids::Grid;
use refusal::Refusal;
use space::Box;

// Counts the nodes of the tree with these targets, or, where it is `sited`, with those of the grid.
fn count(
    b: Box,
    sources: &[f64],
    targets: &[f64],
    sited: bool,
    grid: Grid,
    limit: usize,
    order: usize,
    keep: bool,
    work: &mut [u64],
    indices: &mut [usize],
) -> Result<usize, Refusal>
    ensures value { result ≡ nodes_answer (asks_at b limit order keep sources.now targets.now sited grid) work.old indices.old }
    ensures work_after { work.new ≡ replicate (length work.old) 0 }
    ensures indices_after { indices.new ≡ replicate (length indices.old) 0 }
{
    let mut key = [0u64; 1];
    let mut mark = [0usize; 1];
    let started = build::start(
        b,
        sources,
        targets,
        sited,
        grid,
        limit,
        order,
        keep,
        tree::MOST_NODES,
        work,
        indices,
        &mut key,
        &mut mark,
    );
    slices::clear(work);
    slices::clear_usize(indices);
    Ok(started?.nodes)
}

// How many nodes the tree of the sources has that `build_tree` builds of the same arguments, or why it has none: both slices are room for the work, and 0 throughout after it.
pub fn count_nodes(
    b: Box,
    sources: &[f64],
    targets: &[f64],
    limit: usize,
    order: usize,
    keep: bool,
    refine: bool,
    work: &mut [u64],
    indices: &mut [usize],
) -> Result<usize, Refusal>
    ensures answer { result ≡ nodes_answer (asks_for b sources.now targets.now limit order keep refine) work.old indices.old }
    ensures work { work.new ≡ replicate (length work.old) 0 }
    ensures indices { indices.new ≡ replicate (length indices.old) 0 }
{
    let entries = build::used_entries(targets.len(), keep, refine);
    let grid = build::no_grid();
    count(
        b,
        sources,
        &targets[..entries],
        false,
        grid,
        limit,
        order,
        keep,
        work,
        indices,
    )
}

// The same for `build_tree_on_grid`.
pub fn count_nodes_on_grid(
    b: Box,
    sources: &[f64],
    grid: Grid,
    limit: usize,
    order: usize,
    keep: bool,
    refine: bool,
    work: &mut [u64],
    indices: &mut [usize],
) -> Result<usize, Refusal>
    ensures answer { result ≡ nodes_answer (asks_on_grid b sources.now grid limit order keep refine) work.old indices.old }
    ensures work { work.new ≡ replicate (length work.old) 0 }
    ensures indices { indices.new ≡ replicate (length indices.old) 0 }
{
    let none = &sources[..0];
    let sited = build::both(keep, refine);
    count(
        b, sources, none, sited, grid, limit, order, keep, work, indices,
    )
}
