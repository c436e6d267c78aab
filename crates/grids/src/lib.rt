#![tactic(auto)]

// A regular grid of points: which grids are known, how many points they have, and the first that is outside. No call walks the points.
pub mod spans; // spans.rt: the indices of a cell, and how many points it has

ghost use Rattle.std.specs.Prelude.{◌≡◌, ℕ, ◌≤◌, ◌<◌, true, leb, get_or, None};
ghost use Rattle.std.specs.Float.{nan};
ghost use Rattle.std.specs.Float.Ieee.Positive.{positive};
ghost use Rattle.space.specs.Rows.{first_outside};
ghost use Rattle.grids.specs.Grids.{coordinate as coordinate_of, points_of, index_on, listed, axis_known, grid_known, few_points};
ghost use Rattle.grids.specs.Ranges.{step_on, first_from, Searched, Sought, Fitting};
ghost use Rattle.grids.specs.Exits.{starts_out, ends_out, first_of, last_of, exit_by, grid_exit};

use refusal::Wall;
use space::Frame;

// On each axis a first coordinate, a distance between neighbours and a number of points. Entries past the axes are not read.
#[derive(Clone, Copy)]
pub struct Grid {
    pub origin: [f64; 3],
    pub spacing: [f64; 3],
    pub shape: [usize; 3],
}

// The coordinate of index i on axis a.
fn coordinate(g: Grid, a: usize, i: usize) -> f64
    requires { (a < 3) × (i ≤ 1048576) }
    ensures { result ≡ coordinate_of g a i }
{
    let origin = g.origin[a];
    let spacing = g.spacing[a];
    origin + (i as f64) * spacing
}

// Whether index i of axis a comes before level-16 cell x: a whole number is above its quotient exactly if it is above the floor.
fn comes_before(f: Frame, g: Grid, a: usize, i: usize, x: u64) -> bool
    requires { (a < 3) × (i ≤ 1048576) × (x ≤ 65536) }
    ensures { result ≡ leb (step_on f g a i) x }
{
    (coordinate(g, a, i) - f.displacement[a]) / f.side < (x as f64)
}

// How far from its end a part of n indices is asked next: at most to its middle.
fn reached(n: usize, reach: usize) -> usize
    requires { 0 < n }
    ensures { result < n }
{
    (n >> 1).min(reach)
}

// How many of n indices stand before the one that is k from the upper end, or from the lower.
fn skipped(n: usize, k: usize, upper: bool) -> usize
    requires { k < n }
    ensures { result < n }
{
    if upper { n - 1 - k } else { k }
}

// How many indices of axis a come before level-16 cell x, where that is a number from `from` to `to`, and likely near to the upper end, or to the lower.
// The answer is always from lo to lo + n. The index at that end is asked, then ones ever farther from it; once the answer is passed, each turn halves n.
fn first_near(f: Frame, g: Grid, a: usize, from: usize, to: usize, x: u64, upper: bool) -> usize
    requires { Sought f g a from to x }
    ensures { result ≡ first_from f g a x }
{
    let mut lo = from;
    let mut n = to - from;
    let mut reach: usize = 0;
    while 0 < n {
        let k = reached(n, reach);
        let skip = skipped(n, k, upper);
        reach = k + k + 1;
        if comes_before(f, g, a, lo + skip, x) {
            lo = lo + skip + 1;
            n = n - skip - 1;
        } else {
            n = skip;
        }
    }
    lo
}

// The same, asked first at the middle, near to which a wall lies that halves the indices of a cell.
fn first_within(f: Frame, g: Grid, a: usize, from: usize, to: usize, x: u64) -> usize
    requires { Sought f g a from to x }
    ensures { result ≡ first_from f g a x }
{
    if from == to {
        return from;
    }
    let middle = from + ((to - from) >> 1);
    if comes_before(f, g, a, middle, x) {
        return first_near(f, g, a, middle + 1, to, x, false);
    }
    first_near(f, g, a, from, middle, x, true)
}

// The same, searched on the whole axis.
fn first_from(f: Frame, g: Grid, a: usize, x: u64) -> usize
    requires { Searched f g a × (x ≤ 65536) }
    ensures { result ≡ first_from f g a x }
{
    let n = g.shape[a];
    first_within(f, g, a, 0, n, x)
}

// Above 0, and finite.
fn is_positive(x: f64) -> bool
    ensures { result ≡ positive x }
{
    if x > 0.0 {
        return space::is_finite(x);
    }
    false
}

fn axis_known(g: Grid, a: usize) -> bool
    requires { a < 3 }
    ensures { result ≡ axis_known g a }
{
    if g.shape[a] < 1 {
        return false;
    }
    if space::is_finite(g.origin[a]) {
        return is_positive(g.spacing[a]);
    }
    false
}

// Whether no shape is 0, and origin and spacing are finite and the spacing above 0, on each axis.
pub fn grid_known(axes: usize, g: Grid) -> bool
    requires { axes ≤ 3 }
    ensures { result ≡ grid_known axes g }
{
    for a in 0..axes {
        if !axis_known(g, a) {
            return false;
        }
    }
    true
}

// Whether the grid has at most 1,048,576 points. It stops at the first axis where there are more.
pub fn few_points(axes: usize, g: Grid) -> bool
    requires { (axes ≤ 3) × (grid_known axes g ≡ true) }
    ensures { result ≡ few_points axes g }
{
    let mut n: usize = 1;
    for a in 0..axes {
        let s = g.shape[a];
        if s > 1048576 / n {
            return false;
        }
        n *= s;
    }
    true
}

// Whether index 0 of axis a is outside.
fn starts_out(f: Frame, g: Grid, a: usize) -> bool
    requires { Searched f g a }
    ensures { result ≡ starts_out f g a }
{
    if 0 < first_from(f, g, a, 0) {
        return true;
    }
    first_from(f, g, a, 65536) == 0
}

// The first axis on which row 0 is outside.
fn first_out(f: Frame, g: Grid) -> Option<usize>
    requires { Fitting f g }
    ensures { result ≡ first_of (starts_out f g) f.axes }
{
    for a in 0..f.axes {
        if starts_out(f, g, a) {
            return Some(a);
        }
    }
    None
}

// A row that is outside, and the first axis on which it is.
#[derive(Clone, Copy)]
pub struct Exit {
    pub row: usize,
    pub axis: usize,
}

// The row at which the last axis that ends outside first does, where row 0 is inside.
fn last_out(f: Frame, g: Grid) -> Option<Exit>
    requires { Fitting f g }
    ensures { result ≡ exit_by f g None (last_of (ends_out f g) f.axes) }
{
    let mut stride: usize = 1;
    for a in (0..f.axes).rev() {
        let to = first_from(f, g, a, 65536);
        let s = g.shape[a];
        if to < s {
            return Some(Exit {
                row: to * stride,
                axis: a,
            });
        }
        stride *= s;
    }
    None
}

// The first row that is outside, if one is.
fn grid_exit(f: Frame, g: Grid) -> Option<Exit>
    requires { Fitting f g }
    ensures { result ≡ grid_exit f g }
{
    match first_out(f, g) {
        Some(axis) => Some(Exit { row: 0, axis }),
        None => last_out(f, g),
    }
}

// The coordinates of a row; entries past the axes are 0.
fn row_point(axes: usize, g: Grid, row: usize) -> [f64; 3]
    requires { (axes ≤ 3) × (grid_known axes g ≡ true) × (row ≤ 1048576) }
    ensures { (a : ℕ) → a < axes → get_or result a nan ≡ coordinate_of g a (index_on axes g a row) }
{
    let mut point = [0.0, 0.0, 0.0];
    let mut rest = row;
    for a in (0..axes).rev() {
        let s = g.shape[a];
        point[a] = coordinate(g, a, rest % s);
        rest = rest / s;
    }
    point
}

// The wall of the first point that is outside, if one is: the anchor leaf tells it at that point.
pub fn first_outside(f: Frame, g: Grid) -> Result<(), Wall>
    requires { Fitting f g }
    ensures { result ≡ first_outside (points_of f.axes g) f (listed f.axes g) }
{
    let Some(exit) = grid_exit(f, g) else {
        return Ok(());
    };
    let point = row_point(f.axes, g, exit.row);
    Err(space::wall_of(f, &point, 0, exit.row))
}
