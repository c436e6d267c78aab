#![tactic(auto)]

// One source more in a tree built without targets: document 02, order 7. The tree is judged, and the tree of the longer list is grown.
ghost use Rattle.std.specs.Prelude.{◌≡◌, [], suc, ◌*◌, ◌≤◌, length, replicate, IfOk};
ghost use Rattle.refusal.specs.Outcome.{ending};
ghost use Rattle.refusal.specs.declared.Refusal.TheVariants.{Source};
ghost use Rattle.refusal.specs.Chain.{ask};
ghost use Rattle.space.specs.Cells.{frame_of, inside};
ghost use Rattle.space.specs.Rows.{rows_of};
ghost use Rattle.space.specs.Walls.{first_wall};
ghost use Rattle.tree.specs.Columns.{columns};
ghost use Rattle.laying.specs.Layout.{PointsLaid};
ghost use Rattle.build.specs.Outcomes.{build_outcome, build_answer, rooms, order_left, keys_left, own_left, begins_left, totals_left};
ghost use Rattle.build.specs.Steps.{TreeStarted};
ghost use Rattle.was_built.specs.Build.{asks_alone};
ghost use Rattle.one_more.specs.More.{asks_more, longer_of, judged, more_answer, order_more, keys_more, own_more, begins_more, totals_more};
ghost use Rattle.one_more.specs.Steps.{Sound};

use filling::Started;
use growth::{Grown, Rule};
use refusal::Refusal;
use space::Box;

// Whether the new source is outside: the wall of source n.
fn point_outcome(b: Box, point: [f64; 3], n: usize) -> Result<(), Refusal>
    requires { b.axes ≤ 3 }
    ensures { result ≡ ask (inside (frame_of b) point) (Source (first_wall n (frame_of b) point)) }
{
    let f = space::frame_of(b);
    if space::locate(f, &point, 0).is_none() {
        return Err(Refusal::Source(space::wall_of(f, &point, 0, n)));
    }
    Ok(())
}

// The refusals before the room is asked. The work holds anything after them.
fn judge(
    b: Box,
    sources: &[f64],
    point: [f64; 3],
    limit: usize,
    keep: bool,
    key: &[u64],
    own: &[usize],
    begin: &[usize],
    total: &[usize],
    indices: &[usize],
    work: &mut [u64],
) -> Result<(), Refusal>
    ensures { result ≡ judged (asks_more b sources.now point limit keep (columns key.now own.now begin.now total.now) indices.now) }
{
    space::box_outcome(b)?;
    let axes = b.axes;
    if sources.len() % axes != 0 {
        return Err(Refusal::Shape);
    }
    let n = sources.len() / axes;
    if laying::MOST_POINTS <= n {
        return Err(Refusal::Count);
    }
    if !tree::is_well_formed(axes, key, own, begin, total) {
        return Err(Refusal::Tree);
    }
    if !was_built::is_build_in(
        b, limit, keep, sources, key, own, begin, total, indices, work,
    ) {
        return Err(Refusal::NotBuilt);
    }
    point_outcome(b, point, n)
}

// Writes the codes of the sources and of the point behind as many free places.
fn code_all(b: Box, sources: &[f64], point: &[f64], work: &mut [u64])
    requires { Sound b sources.now point.now × (2 * suc (rows_of b sources.now) ≤ length work.old) }
    ensures { PointsLaid b (longer_of b sources.now point.now) [] work.new }
{
    // None is outside: there is no refusal.
    let _ = laying::code_points(b, sources, &point[..b.axes], &mut work[1..]);
}

// Grows the tree of the longer list, with the marks of its rows in `mark`. After a refusal the slices hold anything.
fn start(
    b: Box,
    sources: &[f64],
    point: &[f64],
    limit: usize,
    keep: bool,
    room: usize,
    work: &mut [u64],
    indices: &mut [usize],
    key: &mut [u64],
    mark: &mut [usize],
) -> Result<Started, Refusal>
    requires { Sound b sources.now point.now × (room ≤ 1048576) × (room ≤ length key.old) × (room ≤ length mark.old) }
    ensures outcome_value { ending result ≡ build_outcome (asks_alone b limit keep (longer_of b sources.now point.now))
        (length work.old) (length indices.old) room }
    ensures tree_started { IfOk result (λ s. TreeStarted (asks_alone b limit keep (longer_of b sources.now point.now))
        room s.rows s.nodes work.new indices.new key.new mark.new) }
{
    let rows = sources.len() / b.axes + 1;
    if work.len() < rows + rows {
        return Err(Refusal::Room(1));
    }
    if indices.len() < rows {
        return Err(Refusal::Room(2));
    }
    code_all(b, sources, point, work);
    let g = Rule {
        axes: b.axes,
        limit,
        order: 0,
        keep,
    };
    let z = build::sizes_of(b, rows, 0, room, 0);
    let n = grow::grow(g, z, indices, work, key, mark);
    build::settle(z.room, z.sources, n)
}

// Grows the tree of the longer list, and writes its columns.
fn raise(
    b: Box,
    sources: &[f64],
    point: &[f64],
    limit: usize,
    keep: bool,
    work: &mut [u64],
    indices: &mut [usize],
    key: &mut [u64],
    own: &mut [usize],
    begin: &mut [usize],
    total: &mut [usize],
) -> Result<Grown, Refusal>
    requires { Sound b sources.now point.now }
    ensures value { result ≡ build_answer (asks_alone b limit keep (longer_of b sources.now point.now))
        (rooms work.old indices.old key.old own.old begin.old total.old) }
    ensures work_after { work.new ≡ replicate (length work.old) 0 }
    ensures indices_after { indices.new ≡ order_left (asks_alone b limit keep (longer_of b sources.now point.now))
        (rooms work.old indices.old key.old own.old begin.old total.old) }
    ensures key_after { key.new ≡ keys_left (asks_alone b limit keep (longer_of b sources.now point.now))
        (rooms work.old indices.old key.old own.old begin.old total.old) }
    ensures own_after { own.new ≡ own_left (asks_alone b limit keep (longer_of b sources.now point.now))
        (rooms work.old indices.old key.old own.old begin.old total.old) }
    ensures begin_after { begin.new ≡ begins_left (asks_alone b limit keep (longer_of b sources.now point.now))
        (rooms work.old indices.old key.old own.old begin.old total.old) }
    ensures total_after { total.new ≡ totals_left (asks_alone b limit keep (longer_of b sources.now point.now))
        (rooms work.old indices.old key.old own.old begin.old total.old) }
{
    let room = tree::node_room(key.len(), own.len(), begin.len(), total.len());
    let started = start(
        b, sources, point, limit, keep, room, work, indices, key, total,
    );
    filling::fill_or_clear(started, work, indices, key, own, begin, total)
}

// The tree of the former sources and one more, from the tree that was built of the former without targets: columns and order column are read, and the
// new ones are written to `new_key`, `new_own`, `new_begin`, `new_total` and `new_indices`.
pub fn add_source(
    b: Box,
    sources: &[f64],
    point: [f64; 3],
    limit: usize,
    keep: bool,
    key: &[u64],
    own: &[usize],
    begin: &[usize],
    total: &[usize],
    indices: &[usize],
    work: &mut [u64],
    new_indices: &mut [usize],
    new_key: &mut [u64],
    new_own: &mut [usize],
    new_begin: &mut [usize],
    new_total: &mut [usize],
) -> Result<Grown, Refusal>
    ensures value { result ≡ more_answer (asks_more b sources.now point limit keep (columns key.now own.now begin.now total.now) indices.now)
        (rooms work.old new_indices.old new_key.old new_own.old new_begin.old new_total.old) }
    ensures work_after { work.new ≡ replicate (length work.old) 0 }
    ensures new_indices_after { new_indices.new ≡ order_more (asks_more b sources.now point limit keep (columns key.now own.now begin.now total.now) indices.now)
        (rooms work.old new_indices.old new_key.old new_own.old new_begin.old new_total.old) }
    ensures new_key_after { new_key.new ≡ keys_more (asks_more b sources.now point limit keep (columns key.now own.now begin.now total.now) indices.now)
        (rooms work.old new_indices.old new_key.old new_own.old new_begin.old new_total.old) }
    ensures new_own_after { new_own.new ≡ own_more (asks_more b sources.now point limit keep (columns key.now own.now begin.now total.now) indices.now)
        (rooms work.old new_indices.old new_key.old new_own.old new_begin.old new_total.old) }
    ensures new_begin_after { new_begin.new ≡ begins_more (asks_more b sources.now point limit keep (columns key.now own.now begin.now total.now) indices.now)
        (rooms work.old new_indices.old new_key.old new_own.old new_begin.old new_total.old) }
    ensures new_total_after { new_total.new ≡ totals_more (asks_more b sources.now point limit keep (columns key.now own.now begin.now total.now) indices.now)
        (rooms work.old new_indices.old new_key.old new_own.old new_begin.old new_total.old) }
{
    let judged = judge(
        b, sources, point, limit, keep, key, own, begin, total, indices, work,
    );
    if let Err(refusal) = judged {
        filling::clear_keys(work, new_indices, new_key);
        tree::clear_columns(new_own, new_begin, new_total);
        return Err(refusal);
    }
    raise(
        b,
        sources,
        &point,
        limit,
        keep,
        work,
        new_indices,
        new_key,
        new_own,
        new_begin,
        new_total,
    )
}
