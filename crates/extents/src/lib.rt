#![tactic(auto)]

// The box from extents.
ghost use Rattle.std.specs.Prelude.{◌≡◌, ◌+◌, ◌/◌, ◌^◌, ◌≤◌, ◌<◌, length};
ghost use Rattle.extents.specs.Floors.{floor_of, ceil_of, whole_under, whole_over};
ghost use Rattle.extents.specs.Extents.{length_known, all_finite, middle, half_width, larger, largest, box_from, tree_box};

use refusal::Refusal;
use space::Box;

// The whole number under a size that is given by its bits, the sign off.
fn whole_under(bits: u64) -> u64
    requires { bits / 2 ^ 52 < 1075 }
    ensures { (result ≡ whole_under bits) × (result ≤ 2 ^ 53) }
{
    let exponent = bits >> 52;
    if exponent < 1023 {
        return 0;
    }
    let digits: u64 = (bits & 0xf_ffff_ffff_ffff) | 0x10_0000_0000_0000;
    digits >> (1075 - exponent)
}

// The whole number over it.
fn whole_over(bits: u64) -> u64
    requires { bits / 2 ^ 52 < 1075 }
    ensures { (result ≡ whole_over bits) × (result ≤ 2 ^ 53) }
{
    if bits == 0 {
        return 0;
    }
    let exponent = bits >> 52;
    if exponent < 1023 {
        return 1;
    }
    let digits: u64 = (bits & 0xf_ffff_ffff_ffff) | 0x10_0000_0000_0000;
    let places = 1075 - exponent;
    let unit: u64 = 1 << places;
    (digits + (unit - 1)) >> places
}

fn floor_of(x: f64) -> f64
    ensures { result ≡ floor_of x }
{
    if x != x {
        return x;
    }
    let bits: u64 = f64::to_bits(x);
    let size = bits % 0x8000_0000_0000_0000;
    // from 2 ^ 52 on every number is whole, and then comes the infinity
    if size / 0x10_0000_0000_0000 >= 1075 {
        return x;
    }
    if bits >= 0x8000_0000_0000_0000 {
        return -(whole_over(size) as f64);
    }
    whole_under(size) as f64
}

fn ceil_of(x: f64) -> f64
    ensures { result ≡ ceil_of x }
{
    -floor_of(-x)
}

fn all_finite(extents: &[f64]) -> bool
    ensures { result ≡ all_finite extents.now }
{
    extents.iter().all(|x| space::is_finite(*x))
}

// The box's centre on axis a of d.
fn middle_on(extents: &[f64], d: usize, a: usize) -> f64
    requires { d + d ≤ length extents.now }
    ensures { result ≡ middle extents.now d a }
{
    if a >= d {
        return 0.0;
    }
    (floor_of(extents[a]) + ceil_of(extents[d + a])) / 2.0
}

// How far the box has to reach on axis a of d.
fn reach_on(extents: &[f64], d: usize, a: usize) -> f64
    requires { (a < d) × (d + d ≤ length extents.now) }
    ensures { result ≡ half_width extents.now d a }
{
    (ceil_of(extents[d + a]) - floor_of(extents[a])) / 2.0 + 1e-3
}

fn larger_of(x: f64, y: f64) -> f64
    ensures { result ≡ larger x y }
{
    if x < y {
        return y;
    }
    x
}

fn largest_reach(extents: &[f64], d: usize) -> f64
    requires { d + d ≤ length extents.now }
    ensures { result ≡ largest d extents.now d }
{
    // minus infinity
    let mut radius: f64 = f64::from_bits(0xfff0_0000_0000_0000);
    for a in 0..d {
        radius = larger_of(radius, reach_on(extents, d, a));
    }
    radius
}

fn box_from(extents: &[f64], d: usize) -> Box
    requires { d + d ≤ length extents.now }
    ensures { result ≡ box_from extents.now d }
{
    let x = middle_on(extents, d, 0);
    let y = middle_on(extents, d, 1);
    let z = middle_on(extents, d, 2);
    Box {
        centre: [x, y, z],
        radius: largest_reach(extents, d),
        axes: d,
    }
}

fn length_known(n: usize) -> bool
    ensures { result ≡ length_known n }
{
    if n == 2 {
        return true;
    }
    if n == 4 {
        return true;
    }
    n == 6
}

// The centre and the radius of the tree that extents ask for: the lows of the axes, then the highs.
pub fn calculate_tree_center_and_radius(extents: &[f64]) -> Result<Box, Refusal>
    ensures { result ≡ tree_box extents.now }
{
    let n = extents.len();
    if !length_known(n) {
        return Err(Refusal::Dims);
    }
    if !all_finite(extents) {
        return Err(Refusal::Box);
    }
    let b = box_from(extents, n / 2);
    space::box_outcome(b)?;
    Ok(b)
}
