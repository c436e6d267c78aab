#![tactic(auto)]

// The tree grown from points: `build_tree` of `linear_tree.rs`, without its lists.
mod on_grid; // on_grid.rt: the sources of a build on a grid laid out, and the span of the root

ghost use Rattle.std.specs.Prelude.{◌≡◌, Bool, true, cond, ◌&&◌, [], ◌∷◌, ℕ, ◌≤◌, leb, length, replicate, Ok, IfOk};
ghost use Rattle.refusal.specs.Outcome.{ending};
ghost use Rattle.refusal.specs.declared.Refusal.TheVariants.{Room};
ghost use Rattle.refusal.specs.Chain.{ask, ◌then◌};
ghost use Rattle.build.specs.Asked.{asks, asks_at, asks_for, asks_on_grid, built_keys};
ghost use Rattle.build.specs.Outcomes.{rooms, build_outcome, build_answer, order_left, keys_left, own_left, begins_left, totals_left};
ghost use Rattle.build.specs.Summing.{Sourced, SumsMade};
ghost use Rattle.build.specs.Steps.{Plain, lay_outcome, LaidOut, TreeStarted};

use filling::Started;
use grids::{Grid, spans};
use growth::{Grown, Rule};
use parting::Sizes;
use refusal::Refusal;
use space::Box;

// Whether both flags are set: only then are targets used.
pub fn both(keep: bool, refine: bool) -> bool
    ensures { result ≡ (keep && refine) }
{
    if keep {
        return refine;
    }
    false
}

// How many entries of the targets are used: all with both flags, else none.
pub fn used_entries(targets: usize, keep: bool, refine: bool) -> usize
    ensures { result ≡ cond (keep && refine) targets 0 }
{
    if both(keep, refine) {
        return targets;
    }
    0
}

// Where targets are used: puts the sums of the sources, which tell when targets split a cell, into the order column. Answers the reference depth, or 0.
fn sum_sources(axes: usize, rows: usize, marks: usize, work: &[u64], indices: &mut [usize]) -> u64
    requires { Sourced axes rows work.now (length indices.old) }
    ensures { SumsMade axes rows marks work.now result indices.new }
{
    if marks == 0 {
        return 0;
    }
    let depth = refine::reference_depth(axes, rows);
    let twice = rows + rows;
    refine::add_sums(axes, depth, &work[rows..twice], indices);
    depth
}

// A grid of no points, for a build that is on none.
pub fn no_grid() -> Grid
    ensures { result.shape ≡ 0 ∷ 0 ∷ 0 ∷ [] }
{
    Grid {
        origin: [0.0, 0.0, 0.0],
        spacing: [0.0, 0.0, 0.0],
        shape: [0, 0, 0],
    }
}

// Sizes without a grid.
pub fn sizes_of(b: Box, sources: usize, targets: usize, room: usize, depth: u64) -> Sizes
    ensures { Plain sources targets room depth result }
{
    let frame = space::frame_of(b);
    let grid = no_grid();
    let span = spans::whole(grid);
    Sizes {
        sources,
        targets,
        room,
        depth,
        gridded: false,
        frame,
        grid,
        span,
    }
}

// Checks the points and lays their codes out in the work, and the sums of the sources in the order column. `room` is that for rows. Answers the sizes of the growth.
fn lay_out(
    b: Box,
    sources: &[f64],
    targets: &[f64],
    order: usize,
    room: usize,
    work: &mut [u64],
    indices: &mut [usize],
) -> Result<Sizes, Refusal>
    ensures outcome_value { ending result ≡ lay_outcome (asks b 0 order true sources.now targets.now) (length work.old) (length indices.old) }
    ensures laid_out { IfOk result (λ z. (limit : ℕ) (keep : Bool)
        → LaidOut (asks b limit order keep sources.now targets.now) room z work.new indices.new) }
{
    laying::prepare(b, sources, targets, order, work)?;
    let axes = b.axes;
    let rows = sources.len() / axes;
    let marks = targets.len() / axes;
    if indices.len() < rows {
        return Err(Refusal::Room(2));
    }
    let depth = sum_sources(axes, rows, marks, work, indices);
    Ok(sizes_of(b, rows, marks, room, depth))
}

// What is put, where n nodes have room.
pub fn settle(room: usize, rows: usize, n: usize) -> Result<Started, Refusal>
    ensures { result ≡ ask (leb n room) (Room 3) then Ok (record { rows = rows; nodes = n }) }
{
    if room < n {
        return Err(Refusal::Room(3));
    }
    Ok(Started { rows, nodes: n })
}

// Lays the points out: of the targets those of the grid, where the build is `sited`, and else these.
fn lay(
    b: Box,
    sources: &[f64],
    targets: &[f64],
    sited: bool,
    grid: Grid,
    order: usize,
    room: usize,
    work: &mut [u64],
    indices: &mut [usize],
) -> Result<Sizes, Refusal>
    ensures outcome_value { ending result ≡ lay_outcome (asks_at b 0 order true sources.now targets.now sited grid) (length work.old) (length indices.old) }
    ensures laid_out { IfOk result (λ z. (limit : ℕ) (keep : Bool)
        → LaidOut (asks_at b limit order keep sources.now targets.now sited grid) room z work.new indices.new) }
{
    if sited {
        return on_grid::lay_on_grid(b, sources, grid, order, room, work, indices);
    }
    lay_out(b, sources, targets, order, room, work, indices)
}

// Lays the points out and grows their tree, with the marks of its rows in `mark`, if both columns have the room; else its nodes are only counted. After a refusal the slices hold anything.
pub fn start(
    b: Box,
    sources: &[f64],
    targets: &[f64],
    sited: bool,
    grid: Grid,
    limit: usize,
    order: usize,
    keep: bool,
    room: usize,
    work: &mut [u64],
    indices: &mut [usize],
    key: &mut [u64],
    mark: &mut [usize],
) -> Result<Started, Refusal>
    requires { room ≤ 1048576 }
    ensures outcome_value { ending result ≡ build_outcome (asks_at b limit order keep sources.now targets.now sited grid)
        (length work.old) (length indices.old) room }
    ensures nodes_value { IfOk result (λ s. s.nodes ≡ length (built_keys (asks_at b limit order keep sources.now targets.now sited grid))) }
    ensures tree_started { IfOk result (λ s. room ≤ length key.old → room ≤ length mark.old
        → TreeStarted (asks_at b limit order keep sources.now targets.now sited grid)
        room s.rows s.nodes work.new indices.new key.new mark.new) }
{
    let z = lay(b, sources, targets, sited, grid, order, room, work, indices)?;
    let g = Rule {
        axes: b.axes,
        limit,
        order,
        keep,
    };
    let n = grow::grow(g, z, indices, work, key, mark);
    settle(z.room, z.sources, n)
}

// Builds the tree with these targets, or, where it is `sited`, with those of the grid.
fn raise(
    b: Box,
    sources: &[f64],
    targets: &[f64],
    sited: bool,
    grid: Grid,
    limit: usize,
    order: usize,
    keep: bool,
    work: &mut [u64],
    indices: &mut [usize],
    key: &mut [u64],
    own: &mut [usize],
    begin: &mut [usize],
    total: &mut [usize],
) -> Result<Grown, Refusal>
    ensures value { result ≡ build_answer (asks_at b limit order keep sources.now targets.now sited grid)
        (rooms work.old indices.old key.old own.old begin.old total.old) }
    ensures work_after { work.new ≡ replicate (length work.old) 0 }
    ensures indices_after { indices.new ≡ order_left (asks_at b limit order keep sources.now targets.now sited grid)
        (rooms work.old indices.old key.old own.old begin.old total.old) }
    ensures key_after { key.new ≡ keys_left (asks_at b limit order keep sources.now targets.now sited grid)
        (rooms work.old indices.old key.old own.old begin.old total.old) }
    ensures own_after { own.new ≡ own_left (asks_at b limit order keep sources.now targets.now sited grid)
        (rooms work.old indices.old key.old own.old begin.old total.old) }
    ensures begin_after { begin.new ≡ begins_left (asks_at b limit order keep sources.now targets.now sited grid)
        (rooms work.old indices.old key.old own.old begin.old total.old) }
    ensures total_after { total.new ≡ totals_left (asks_at b limit order keep sources.now targets.now sited grid)
        (rooms work.old indices.old key.old own.old begin.old total.old) }
{
    let room = tree::node_room(key.len(), own.len(), begin.len(), total.len());
    let started = start(
        b, sources, targets, sited, grid, limit, order, keep, room, work, indices, key, total,
    );
    filling::fill_or_clear(started, work, indices, key, own, begin, total)
}

// The tree of the sources, of which the number of nodes and the depth are answered: its keys, own sources, begins and totals, and the order column in `indices`.
// `order` is that of the expansions, and `keep` and `refine` are the two flags.
pub fn build_tree(
    b: Box,
    sources: &[f64],
    targets: &[f64],
    limit: usize,
    order: usize,
    keep: bool,
    refine: bool,
    work: &mut [u64],
    indices: &mut [usize],
    key: &mut [u64],
    own: &mut [usize],
    begin: &mut [usize],
    total: &mut [usize],
) -> Result<Grown, Refusal>
    ensures value { result ≡ build_answer (asks_for b sources.now targets.now limit order keep refine)
        (rooms work.old indices.old key.old own.old begin.old total.old) }
    ensures work_after { work.new ≡ replicate (length work.old) 0 }
    ensures indices_after { indices.new ≡ order_left (asks_for b sources.now targets.now limit order keep refine)
        (rooms work.old indices.old key.old own.old begin.old total.old) }
    ensures key_after { key.new ≡ keys_left (asks_for b sources.now targets.now limit order keep refine)
        (rooms work.old indices.old key.old own.old begin.old total.old) }
    ensures own_after { own.new ≡ own_left (asks_for b sources.now targets.now limit order keep refine)
        (rooms work.old indices.old key.old own.old begin.old total.old) }
    ensures begin_after { begin.new ≡ begins_left (asks_for b sources.now targets.now limit order keep refine)
        (rooms work.old indices.old key.old own.old begin.old total.old) }
    ensures total_after { total.new ≡ totals_left (asks_for b sources.now targets.now limit order keep refine)
        (rooms work.old indices.old key.old own.old begin.old total.old) }
{
    let entries = used_entries(targets.len(), keep, refine);
    let grid = no_grid();
    raise(
        b,
        sources,
        &targets[..entries],
        false,
        grid,
        limit,
        order,
        keep,
        work,
        indices,
        key,
        own,
        begin,
        total,
    )
}

// The same tree as on the listed points of a grid, which are nowhere listed: counted by index ranges, they need no work.
pub fn build_tree_on_grid(
    b: Box,
    sources: &[f64],
    grid: Grid,
    limit: usize,
    order: usize,
    keep: bool,
    refine: bool,
    work: &mut [u64],
    indices: &mut [usize],
    key: &mut [u64],
    own: &mut [usize],
    begin: &mut [usize],
    total: &mut [usize],
) -> Result<Grown, Refusal>
    ensures value { result ≡ build_answer (asks_on_grid b sources.now grid limit order keep refine)
        (rooms work.old indices.old key.old own.old begin.old total.old) }
    ensures work_after { work.new ≡ replicate (length work.old) 0 }
    ensures indices_after { indices.new ≡ order_left (asks_on_grid b sources.now grid limit order keep refine)
        (rooms work.old indices.old key.old own.old begin.old total.old) }
    ensures key_after { key.new ≡ keys_left (asks_on_grid b sources.now grid limit order keep refine)
        (rooms work.old indices.old key.old own.old begin.old total.old) }
    ensures own_after { own.new ≡ own_left (asks_on_grid b sources.now grid limit order keep refine)
        (rooms work.old indices.old key.old own.old begin.old total.old) }
    ensures begin_after { begin.new ≡ begins_left (asks_on_grid b sources.now grid limit order keep refine)
        (rooms work.old indices.old key.old own.old begin.old total.old) }
    ensures total_after { total.new ≡ totals_left (asks_on_grid b sources.now grid limit order keep refine)
        (rooms work.old indices.old key.old own.old begin.old total.old) }
{
    let none = &sources[..0];
    let sited = both(keep, refine);
    raise(
        b, sources, none, sited, grid, limit, order, keep, work, indices, key, own, begin, total,
    )
}
