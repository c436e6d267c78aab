#![tactic(auto)]

// One point: its anchors and its key at a level.
ghost use Rattle.std.specs.Prelude.{◌≡◌, ◌≤◌, IfOk};
ghost use Rattle.refusal.specs.declared.Refusal.TheVariants.{Point};
ghost use Rattle.space.specs.Cells.{frame_of, Nests};
ghost use Rattle.space.specs.Walls.{first_wall};
ghost use Rattle.points.specs.Calls.{point_to_anchor, point_to_key};

use refusal::Refusal;
use space::Box;

// The refusal of a point that is outside, which is number 0 of its call.
fn outside(b: Box, point: [f64; 3]) -> Refusal
    requires { b.axes ≤ 3 }
    ensures { result ≡ Point (first_wall 0 (frame_of b) point) }
{
    Refusal::Point(space::wall_of(space::frame_of(b), &point, 0, 0))
}

// The anchors of the cell in which a point lies, 0 past the axes. They are the floors that the level's own quotients have.
pub fn point_to_anchor(b: Box, point: [f64; 3], level: u64) -> Result<[u64; 3], Refusal>
    ensures value { result ≡ point_to_anchor b point level }
    ensures nests { IfOk result (λ anchor. Nests b point level anchor) }
{
    space::level_outcome(b, level)?;
    let Some(anchor) = space::locate(space::frame_of(b), &point, 0) else {
        return Err(outside(b, point));
    };
    let up = 16 - level;
    Ok([anchor[0] >> up, anchor[1] >> up, anchor[2] >> up])
}

pub fn point_to_key(b: Box, point: [f64; 3], level: u64) -> Result<u64, Refusal>
    ensures { result ≡ point_to_key b point level }
{
    space::level_outcome(b, level)?;
    let Some(anchor) = space::locate(space::frame_of(b), &point, 0) else {
        let refusal = outside(b, point);
        return Err(refusal);
    };
    let code = codes::encode(b.axes, anchor);
    let above = (b.axes as u64) * (16 - level);
    Ok((code >> above) * 32768 + level)
}
