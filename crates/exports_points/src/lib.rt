#![tactic(auto)]

// The calls on points and boxes for C. The box comes as its centre, its radius and its number of axes.
ghost use Rattle.std.specs.Prelude.{◌≡◌, false};
ghost use Rattle.refusal.specs.Outcome.{ending, answer_or};
ghost use Rattle.exports_keys.specs.Told.{told};
ghost use Rattle.space.specs.Floats.{nought};
ghost use Rattle.space.specs.Domain.{box_outcome};
ghost use Rattle.points.specs.Calls.{point_to_anchor, point_to_key};
ghost use Rattle.centres.specs.Centres.{side_length, centre_length, are_adjacent};
ghost use Rattle.extents.specs.Extents.{tree_box};
ghost use Rattle.exports_points.specs.Boxes.{box_at};
ghost use Rattle.exports_points.specs.Told.{no_anchor, no_centre, no_box, AgreeTold, depth_answer};

use exports_keys::Ended;
use refusal::Refusal;
use space::Box;

pub fn box_at(centre: &[f64; 3], radius: f64, axes: usize) -> Box
    ensures { result ≡ box_at centre.now radius axes }
{
    let place = *centre;
    Box {
        centre: place,
        radius,
        axes,
    }
}

pub fn lohandema_box_outcome(centre: &[f64; 3], radius: f64, axes: usize) -> Ended
    ensures { result ≡ told (box_outcome (box_at centre.now radius axes)) }
{
    let b = box_at(centre, radius, axes);
    let outcome = space::box_outcome(b);
    exports_keys::end_of(outcome)
}

pub fn lohandema_point_to_anchor(
    centre: &[f64; 3],
    radius: f64,
    axes: usize,
    point: &[f64; 3],
    level: u64,
    anchor: &mut [u64; 3],
) -> Ended
    ensures ended { result ≡ told (ending (point_to_anchor (box_at centre.now radius axes) point.now level)) }
    ensures anchor { anchor.new ≡ answer_or no_anchor (point_to_anchor (box_at centre.now radius axes) point.now level) }
{
    let b = box_at(centre, radius, axes);
    let place = *point;
    exports_keys::tell(points::point_to_anchor(b, place, level), [0u64; 3], anchor)
}

pub fn lohandema_point_to_key(
    centre: &[f64; 3],
    radius: f64,
    axes: usize,
    point: &[f64; 3],
    level: u64,
    key: &mut u64,
) -> Ended
    ensures ended { result ≡ told (ending (point_to_key (box_at centre.now radius axes) point.now level)) }
    ensures key { key.new ≡ answer_or 0 (point_to_key (box_at centre.now radius axes) point.now level) }
{
    let b = box_at(centre, radius, axes);
    let place = *point;
    exports_keys::tell(points::point_to_key(b, place, level), 0, key)
}

pub fn lohandema_get_side_length(
    centre: &[f64; 3],
    radius: f64,
    axes: usize,
    level: u64,
    side: &mut f64,
) -> Ended
    ensures ended { result ≡ told (ending (side_length (box_at centre.now radius axes) level)) }
    ensures side { side.new ≡ answer_or nought (side_length (box_at centre.now radius axes) level) }
{
    let b = box_at(centre, radius, axes);
    exports_keys::tell(centres::get_side_length(b, level), 0.0, side)
}

pub fn lohandema_get_center_length(
    centre: &[f64; 3],
    radius: f64,
    axes: usize,
    key: u64,
    middle: &mut [f64; 3],
    length: &mut f64,
) -> Ended
    ensures ended { result ≡ told (ending (centre_length (box_at centre.now radius axes) key)) }
    ensures middle { middle.new ≡ (answer_or no_centre (centre_length (box_at centre.now radius axes) key)).centre }
    ensures length { length.new ≡ (answer_or no_centre (centre_length (box_at centre.now radius axes) key)).length }
{
    let b = box_at(centre, radius, axes);
    match centres::get_center_length(b, key) {
        Ok(found) => {
            let place = found.centre;
            *middle = place;
            *length = found.length;
            exports_keys::end_of(Ok(()))
        }
        Err(refusal) => {
            let none = [0.0; 3];
            *middle = none;
            *length = 0.0;
            exports_keys::end_of(Err(refusal))
        }
    }
}

pub fn lohandema_are_adjacent(
    centre: &[f64; 3],
    radius: f64,
    axes: usize,
    first: u64,
    second: u64,
    adjacent: &mut bool,
) -> Ended
    ensures ended { result ≡ told (ending (are_adjacent (box_at centre.now radius axes) first second)) }
    ensures adjacent { adjacent.new ≡ answer_or false (are_adjacent (box_at centre.now radius axes) first second) }
    ensures agrees { AgreeTold (box_at centre.now radius axes) first second result adjacent.new }
{
    let b = box_at(centre, radius, axes);
    exports_keys::tell(centres::are_adjacent(b, first, second), false, adjacent)
}

pub fn lohandema_calculate_tree_center_and_radius(
    extents: &[f64],
    centre: &mut [f64; 3],
    radius: &mut f64,
    axes: &mut usize,
) -> Ended
    ensures ended { result ≡ told (ending (tree_box extents.now)) }
    ensures bounds { box_at centre.new radius.new axes.new ≡ answer_or no_box (tree_box extents.now) }
{
    let none = Box {
        centre: [0.0; 3],
        radius: 0.0,
        axes: 0,
    };
    let mut b = none;
    let ended = exports_keys::tell(
        extents::calculate_tree_center_and_radius(extents),
        none,
        &mut b,
    );
    *centre = b.centre;
    *radius = b.radius;
    *axes = b.axes;
    ended
}

// The least depth whose cells are at least as many as the sources, held to 1..16, on 1 to 3 axes.
fn depth_of(axes: usize, sources: usize) -> Result<u64, Refusal>
    ensures { result ≡ depth_answer axes sources }
{
    if !axes::axes_known(axes) {
        return Err(Refusal::Dims);
    }
    Ok(refine::reference_depth(axes, sources))
}

// The same, told to C.
pub fn lohandema_reference_depth(axes: usize, sources: usize, depth: &mut u64) -> Ended
    ensures ended { result ≡ told (ending (depth_answer axes sources)) }
    ensures depth { depth.new ≡ answer_or 0 (depth_answer axes sources) }
{
    exports_keys::tell(depth_of(axes, sources), 0, depth)
}
