// A build on a grid: its sources laid out for the growth, and the span of the root. The grid's points are nowhere listed.
ghost use Rattle.std.specs.Prelude.{◌≡◌, Bool, true, [], ℕ, length, IfOk};
ghost use Rattle.refusal.specs.Outcome.{accepted, ending};
ghost use Rattle.laying.specs.Outcomes.{inside_outcome};
ghost use Rattle.grids.specs.Grids.{listed};
ghost use Rattle.grid_laying.specs.Layout.{Sited};
ghost use Rattle.build.specs.Asked.{asks_at};
ghost use Rattle.build.specs.Steps.{lay_outcome, LaidOut};
ghost use Rattle.build.specs.OnGrid.{OnGrid};

use grids::{Grid, spans};
use parting::Sizes;
use refusal::Refusal;
use space::Box;

// The sizes of a growth on a grid, with the span of the root.
fn sizes_on_grid(b: Box, grid: Grid, sources: usize, room: usize, depth: u64) -> Sizes
    requires { Sited b grid × (inside_outcome b [] (listed b.axes grid) ≡ accepted) }
    ensures { OnGrid b grid sources room depth result }
{
    let frame = space::frame_of(b);
    let whole = spans::whole(grid);
    let span = spans::parted(frame, grid, 0, whole);
    Sizes {
        sources,
        targets: 1,
        room,
        depth,
        gridded: true,
        frame,
        grid,
        span,
    }
}

// Checks a build on a grid and lays the sources' codes out in the work, and their sums in the order column. `room` is that for rows. Answers the sizes of the growth.
pub fn lay_on_grid(
    b: Box,
    sources: &[f64],
    grid: Grid,
    order: usize,
    room: usize,
    work: &mut [u64],
    indices: &mut [usize],
) -> Result<Sizes, Refusal>
    ensures outcome_value { ending result ≡ lay_outcome (asks_at b 0 order true sources.now [] true grid) (length work.old) (length indices.old) }
    ensures laid_out { IfOk result (λ z. (limit : ℕ) (keep : Bool)
        → LaidOut (asks_at b limit order keep sources.now [] true grid) room z work.new indices.new) }
{
    grid_laying::prepare(b, sources, grid, order, work)?;
    let axes = b.axes;
    let rows = sources.len() / axes;
    if indices.len() < rows {
        return Err(Refusal::Room(2));
    }
    let depth = crate::sum_sources(axes, rows, 1, work, indices);
    Ok(sizes_on_grid(b, grid, rows, room, depth))
}
