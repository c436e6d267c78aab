// The indices of a cell on each axis, a range, found by halving inside the range of its parent; and how many points it has, their product.
ghost use Rattle.std.specs.Prelude.{◌≡◌, ◌*◌, ◌+◌, ◌-◌, ◌^◌, ◌≤◌, ◌<◌, get_or};
ghost use Rattle.morton.specs.Keys.{level_of, ValidKey};
ghost use Rattle.grids.specs.Grids.{product, shape_on};
ghost use Rattle.grids.specs.Ranges.{first_from, Searched, Fitting};
ghost use Rattle.grids.specs.Spans.{length_on, Counts, OnAxis, Spanned, Parted, HalfTaken, Whole};

use crate::Grid;
use morton::keys;
use space::Frame;

// On each axis the cell's indices are those from `from` up to `to`, and those from `middle` on are in the upper half. Entries past the axes are 0.
#[derive(Clone, Copy)]
pub struct Span {
    pub from: [usize; 3],
    pub middle: [usize; 3],
    pub to: [usize; 3],
}

// All indices.
pub fn whole(g: Grid) -> Span
    ensures { Whole g result }
{
    let to = g.shape;
    Span {
        from: [0, 0, 0],
        middle: [0, 0, 0],
        to,
    }
}

// Where the upper half begins on axis a, of the cell with anchor x.
fn middle_on(f: Frame, g: Grid, a: usize, level: u64, x: u64, from: usize, to: usize) -> usize
    requires { Searched f g a × (level < 16) × (x < 2 ^ level) × OnAxis f g a level x from to }
    ensures { result ≡ first_from f g a ((2 * x + 1) * 2 ^ (15 - level)) }
{
    crate::first_within(f, g, a, from, to, (2 * x + 1) << (15 - level))
}

// The span of a cell with its middle, where it had none.
pub fn parted(f: Frame, g: Grid, key: u64, s: Span) -> Span
    requires { Fitting f g × ValidKey f.axes key × (level_of key < 16) × Spanned f g key s }
    ensures { Parted f g key result }
{
    let axes = f.axes;
    let level = keys::level_of(key);
    let anchor = anchors::anchors_of(axes, key);
    let from = s.from;
    let to = s.to;
    let mut middle = [0usize; 3];
    for a in 0..axes {
        middle[a] = middle_on(f, g, a, level, anchor[a], from[a], to[a]);
    }
    Span { from, middle, to }
}

// The half of a span on each axis that child c has: bit a of c tells which, lower or upper.
pub fn half_of(axes: usize, s: Span, c: u64) -> Span
    requires { (axes ≤ 3) × (c < 2 ^ axes) }
    ensures { HalfTaken axes s c result }
{
    let middle = s.middle;
    let mut from = s.from;
    let mut to = s.to;
    for a in 0..axes {
        if (c >> a) % 2 == 0 {
            to[a] = middle[a];
        } else {
            from[a] = middle[a];
        }
    }
    Span { from, middle, to }
}

fn times(n: usize, m: usize) -> usize
    requires { n * m ≤ 1048576 }
    ensures { result ≡ n * m }
{
    n * m
}

// How many points a span has: the product of its lengths.
pub fn count(axes: usize, s: Span) -> usize
    requires { Counts axes s }
    ensures { result ≡ product (length_on s) 0 axes }
{
    let mut n: usize = 1;
    for a in 0..axes {
        n = times(n, s.to[a] - s.from[a]);
    }
    n
}
