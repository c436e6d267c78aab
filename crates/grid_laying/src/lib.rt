#![tactic(auto)]

// The points of a build on a grid: the checks, and the sources' codes laid out in the work. The grid's points are nowhere listed.
ghost use Rattle.std.specs.Prelude.{◌≡◌, [], ◌≤◌, length, Err};
ghost use Rattle.refusal.specs.Outcome.{accepted};
ghost use Rattle.refusal.specs.declared.Refusal.TheVariants.{Room};
ghost use Rattle.refusal.specs.Chain.{◌then◌};
ghost use Rattle.space.specs.Domain.{box_outcome};
ghost use Rattle.space.specs.Rows.{rows_of};
ghost use Rattle.laying.specs.Outcomes.{asked_outcome, inside_outcome, work_outcome};
ghost use Rattle.laying.specs.Layout.{CodesLaid};
ghost use Rattle.grids.specs.Grids.{listed};
ghost use Rattle.grid_laying.specs.Outcomes.{grid_outcome, grid_checks};
ghost use Rattle.grid_laying.specs.Layout.{Sited, GridLaid};

use grids::Grid;
use refusal::Refusal;
use space::Box;

// Why a build on a grid is refused before its points are looked at, if it is.
fn call_outcome(b: Box, sources: &[f64], grid: Grid, order: usize) -> Result<(), Refusal>
    ensures { result ≡ grid_outcome b grid then asked_outcome b sources.now (listed b.axes grid) order }
{
    space::box_outcome(b)?;
    if !grids::grid_known(b.axes, grid) {
        return Err(Refusal::Grid);
    }
    laying::call_outcome(b, sources, &sources[..0], order)?;
    if !grids::few_points(b.axes, grid) {
        return Err(Refusal::Count);
    }
    if order < 1 {
        return Err(Refusal::Order);
    }
    if 64 < order {
        return Err(Refusal::Order);
    }
    Ok(())
}

// 6: whether all sources are inside.
fn sources_outcome(b: Box, sources: &[f64]) -> Result<(), Refusal>
    requires { box_outcome b ≡ accepted }
    ensures { result ≡ inside_outcome b sources.now [] }
{
    laying::first_outside(b, sources).map_err(Refusal::Source)
}

// 7: whether all points of the grid are inside.
fn points_outcome(b: Box, grid: Grid) -> Result<(), Refusal>
    requires { Sited b grid }
    ensures { result ≡ inside_outcome b [] (listed b.axes grid) }
{
    grids::first_outside(space::frame_of(b), grid).map_err(Refusal::Point)
}

// Where the work is short: a point that is outside refuses before that.
fn short_work(b: Box, sources: &[f64], grid: Grid) -> Result<(), Refusal>
    requires { Sited b grid }
    ensures { result ≡ inside_outcome b sources.now (listed b.axes grid) then Err (Room 1) }
{
    sources_outcome(b, sources)?;
    points_outcome(b, grid)?;
    Err(Refusal::Room(1))
}

// Writes the codes of the sources behind as many free places, and tests the grid's points.
fn code_sources(b: Box, sources: &[f64], grid: Grid, work: &mut [u64]) -> Result<(), Refusal>
    requires { Sited b grid × (rows_of b sources.now ≤ 1048576) }
    ensures value { result ≡ inside_outcome b sources.now (listed b.axes grid) then work_outcome b sources.now [] (length work.old) }
    ensures codes_laid { result ≡ accepted → CodesLaid b sources.now [] work.new }
{
    let rows = sources.len() / b.axes;
    let twice = rows + rows;
    if work.len() < twice {
        return short_work(b, sources, grid);
    }
    laying::code_points(b, sources, &sources[..0], work)?;
    points_outcome(b, grid)
}

// Checks a build on a grid, and lays the sources' codes out in the work, by index behind as many free places.
pub fn prepare(
    b: Box,
    sources: &[f64],
    grid: Grid,
    order: usize,
    work: &mut [u64],
) -> Result<(), Refusal>
    ensures value { result ≡ grid_checks b sources.now grid order (length work.old) }
    ensures grid_laid { result ≡ accepted → GridLaid b sources.now grid order work.new }
{
    call_outcome(b, sources, grid, order)?;
    code_sources(b, sources, grid, work)
}
