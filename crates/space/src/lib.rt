#![tactic(auto)]

// The box, and the cell in which a point lies or the wall that it is behind.
ghost use Rattle.std.specs.Prelude.{◌≡◌, ◌+◌, ◌/◌, ◌≤◌, ◌<◌, length, drop};
ghost use Rattle.space.specs.Floats.{size_of, is_finite, floor};
ghost use Rattle.space.specs.Cells.{displacement as displacement_of, cell_number, wall_by, cell_in, side, frame_of, cell16, number_in, point_code, located_of};
ghost use Rattle.space.specs.Walls.{reason_of, first_wall};
ghost use Rattle.space.specs.Rows.{first_outside, coded};
ghost use Rattle.space.specs.Domain.{radius_known, centres_known, box_outcome, level_outcome};

use refusal::{Refusal, Wall};

// The centre, the radius and the number of axes. Centre entries past the axes are not read.
#[derive(Clone, Copy)]
pub struct Box {
    pub centre: [f64; 3],
    pub radius: f64,
    pub axes: usize,
}

// A number with its sign off.
pub fn magnitude(x: f64) -> f64
    ensures { result ≡ size_of x }
{
    if x == 0.0 {
        return 0.0;
    }
    if x < 0.0 {
        return -x;
    }
    x
}

fn radius_known(radius: f64) -> bool
    ensures { result ≡ radius_known radius }
{
    if radius >= 0.25 {
        return radius <= 1048576.0;
    }
    false
}

fn centres_known(b: Box) -> bool
    requires { b.axes ≤ 3 }
    ensures { result ≡ centres_known b.axes b.centre }
{
    for a in 0..b.axes {
        if !(magnitude(b.centre[a]) <= 16777216.0) {
            return false;
        }
    }
    true
}

// Why a call that takes the box is refused, if it is.
pub fn box_outcome(b: Box) -> Result<(), Refusal>
    ensures { result ≡ box_outcome b }
{
    if b.axes < 1 {
        return Err(Refusal::Dims);
    }
    if b.axes > 3 {
        return Err(Refusal::Dims);
    }
    if !radius_known(b.radius) {
        return Err(Refusal::Box);
    }
    if !centres_known(b) {
        return Err(Refusal::Box);
    }
    Ok(())
}

// Where a coordinate lies on an axis: its cell's number; or it is not finite, below the box, or above it.
#[derive(Clone, Copy)]
pub enum Place {
    At(u64),
    NotFinite,
    Below,
    Above,
}

// Neither a NaN nor an infinity.
pub fn is_finite(x: f64) -> bool
    ensures { result ≡ is_finite x }
{
    let top: f64 = f64::from_bits(0x7ff0_0000_0000_0000);
    if x < top {
        return -top < x;
    }
    false
}

// Why a coordinate with this quotient is at no cell: the coordinate itself is asked first.
fn wall_by(x: f64, q: f64) -> Place
    ensures { result ≡ wall_by x q }
{
    if !is_finite(x) {
        return Place::NotFinite;
    }
    if q < 0.0 {
        return Place::Below;
    }
    Place::Above
}

// The cell of a quotient among 65536, from its bits: its floor, where that is one of 0..65535.
fn number_of(q: f64) -> Option<u64>
    ensures { result ≡ cell_number 65536 (floor q) }
{
    if q != q {
        return None;
    }
    let bits: u64 = f64::to_bits(q);
    if bits >= 0x8000_0000_0000_0000 {
        // a negative number, but for -0.0
        if bits == 0x8000_0000_0000_0000 {
            return Some(0);
        }
        return None;
    }
    // from 1.0 on q is `digits` * 2 ^ (`exponent` - 1075)
    let exponent: u64 = bits >> 52;
    if exponent < 1023 {
        return Some(0);
    }
    // 65536.0 and more, and the infinity
    if exponent >= 1039 {
        return None;
    }
    let digits: u64 = (bits & 0xf_ffff_ffff_ffff) | 0x10_0000_0000_0000;
    Some(digits >> (1075 - exponent))
}

// The anchor leaf: the cell of a coordinate with this quotient, or the wall that it is behind.
fn cell_of(x: f64, q: f64) -> Place
    ensures { result ≡ cell_in 65536 (floor q) (wall_by x q) }
{
    let cell = number_of(q);
    match cell {
        Some(k) => Place::At(k),
        None => wall_by(x, q),
    }
}

// The side of a cell at a level.
pub fn side_at(radius: f64, level: u64) -> f64
    requires { level ≤ 16 }
    ensures { result ≡ side radius level }
{
    let cells: u64 = 1 << level;
    2.0 * radius / (cells as f64)
}

// What the points of a box share: the displacement on each axis, the side at level 16, the number of axes.
#[derive(Clone, Copy)]
pub struct Frame {
    pub displacement: [f64; 3],
    pub side: f64,
    pub axes: usize,
}

pub fn displacement(b: Box, a: usize) -> f64
    requires { a < 3 }
    ensures { result ≡ displacement_of b a }
{
    if a < b.axes {
        return b.centre[a] - b.radius;
    }
    0.0
}

pub fn frame_of(b: Box) -> Frame
    ensures { result ≡ frame_of b }
{
    Frame {
        displacement: [displacement(b, 0), displacement(b, 1), displacement(b, 2)],
        side: side_at(b.radius, 16),
        axes: b.axes,
    }
}

// The level-16 cell on axis a of the point that begins at `at`.
fn place_on(f: Frame, points: &[f64], at: usize, a: usize) -> Place
    requires { (a < 3) × (at + f.axes ≤ length points.now) }
    ensures { result ≡ cell16 f (drop at points.now) a }
{
    if a >= f.axes {
        return Place::At(0);
    }
    let x = points[at + a];
    cell_of(x, (x - f.displacement[a]) / f.side)
}

// The same, without the wall.
fn cell_on(f: Frame, points: &[f64], at: usize, a: usize) -> Option<u64>
    requires { (a < 3) × (at + f.axes ≤ length points.now) }
    ensures { result ≡ number_in (cell16 f (drop at points.now) a) }
{
    if a >= f.axes {
        return Some(0);
    }
    number_of((points[at + a] - f.displacement[a]) / f.side)
}

// The level-16 anchors of the point that begins at `at`, if it is inside.
pub fn locate(f: Frame, points: &[f64], at: usize) -> Option<[u64; 3]>
    requires { at + f.axes ≤ length points.now }
    ensures { result ≡ located_of f (drop at points.now) }
{
    let x = cell_on(f, points, at, 0)?;
    let y = cell_on(f, points, at, 1)?;
    let z = cell_on(f, points, at, 2)?;
    Some([x, y, z])
}

fn reason_of(place: Place) -> u16
    ensures { result ≡ reason_of place }
{
    match place {
        Place::At(_) => 0,
        Place::NotFinite => 1,
        Place::Below => 2,
        Place::Above => 3,
    }
}

fn behind(index: usize, axis: u16, reason: u16) -> Wall
    ensures { result ≡ record { index = index; axis = axis; reason = reason } }
{
    Wall {
        index,
        axis,
        reason,
    }
}

// The wall that the point that begins at `at` is behind, on the first axis that has one; reason 0 where the point is inside.
pub fn wall_of(f: Frame, points: &[f64], at: usize, index: usize) -> Wall
    requires { at + f.axes ≤ length points.now }
    ensures { result ≡ first_wall index f (drop at points.now) }
{
    let x = reason_of(place_on(f, points, at, 0));
    if x != 0 {
        return behind(index, 0, x);
    }
    let y = reason_of(place_on(f, points, at, 1));
    if y != 0 {
        return behind(index, 1, y);
    }
    behind(index, 2, reason_of(place_on(f, points, at, 2)))
}

// The code of the point that begins at `at`, on the frame's axes.
pub fn code_at(f: Frame, points: &[f64], at: usize) -> Option<u64>
    requires { (1 ≤ f.axes) × (f.axes ≤ 3) × (at + f.axes ≤ length points.now) }
    ensures { result ≡ point_code f (drop at points.now) }
{
    let x = cell_on(f, points, at, 0)?;
    let y = cell_on(f, points, at, 1)?;
    let z = cell_on(f, points, at, 2)?;
    Some(codes::encode(f.axes, [x, y, z]))
}

// Writes the codes of the points, up to the first that is outside.
pub fn points_to_codes(b: Box, points: &[f64], codes: &mut [u64]) -> Result<(), Wall>
    requires { (1 ≤ b.axes) × (b.axes ≤ 3) × (length points.now / b.axes ≤ length codes.old) }
    ensures value { result ≡ first_outside (length points.now / b.axes) (frame_of b) points.now }
    ensures codes_after { codes.new ≡ coded (length points.now / b.axes) (frame_of b) points.now codes.old }
{
    let f = frame_of(b);
    let axes = b.axes;
    let rows = points.len() / axes;
    let mut at = 0;
    for row in 0..rows {
        match code_at(f, points, at) {
            Some(code) => {
                codes[row] = code;
            }
            None => {
                return Err(wall_of(f, points, at, row));
            }
        }
        at += axes;
    }
    Ok(())
}

// Why a call with a box and a level is refused, if it is.
pub fn level_outcome(b: Box, level: u64) -> Result<(), Refusal>
    ensures { result ≡ level_outcome b level }
{
    box_outcome(b)?;
    if level > 16 {
        return Err(Refusal::Key);
    }
    Ok(())
}
