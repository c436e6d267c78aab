#![tactic(auto)]

// A cell's anchors: encode, decode, and which cells touch.
ghost use Rattle.std.specs.Prelude.{◌≡◌, true, ◌≤◌, ◌<◌, get_or};
ghost use Rattle.slices.specs.Lists.{filled};
ghost use Rattle.morton.specs.Keys.{level_of, code_of, ValidKey};
ghost use Rattle.morton.specs.Anchors.{anchors, key_at, near, on_level, on_axes};
ghost use Rattle.anchors.specs.Answers.{anchor_check, pair_check, decode_answer, encode_answer, touching_answer};

use morton::keys;
use refusal::Refusal;

// A cell's anchors by value, those past the axes 0, and its level.
#[derive(Clone, Copy)]
pub struct Decoded {
    pub anchor: [u64; 3],
    pub level: u64,
}

// Whether each anchor on the axes is one of its level.
fn on_level(axes: usize, anchor: [u64; 3], level: u64) -> bool
    requires { (axes ≤ 3) × (level ≤ 16) }
    ensures { result ≡ on_level axes level anchor }
{
    let end: u64 = 1 << level;
    for n in (0..axes).rev() {
        if end <= anchor[n] {
            return false;
        }
    }
    true
}

// The refusals of an anchor and its level.
fn check_anchor(axes: usize, anchor: [u64; 3], level: u64) -> Result<(), Refusal>
    ensures { result ≡ anchor_check axes level anchor }
{
    if axes < 1 {
        return Err(Refusal::Dims);
    }
    if 3 < axes {
        return Err(Refusal::Dims);
    }
    if 16 < level {
        return Err(Refusal::Key);
    }
    if on_level(axes, anchor, level) {
        return Ok(());
    }
    Err(Refusal::Key)
}

// The anchors on the axes, and 0 past them.
fn on_axes(axes: usize, anchor: [u64; 3]) -> [u64; 3]
    requires { axes ≤ 3 }
    ensures { result ≡ filled 3 (on_axes axes anchor) }
{
    let mut used = [0u64; 3];
    for a in 0..axes {
        used[a] = anchor[a];
    }
    used
}

// The key of anchors of a level, on 1 to 3 axes.
pub fn key_at(axes: usize, anchor: [u64; 3], level: u64) -> u64
    requires { (1 ≤ axes) × (axes ≤ 3) × (level ≤ 16) × (on_level axes level anchor ≡ true) }
    ensures { result ≡ key_at axes level anchor }
{
    let used = on_axes(axes, anchor);
    codes::encode(axes, used) * 32768 + level
}

// The key of a cell, by its anchors and its level; anchors past the axes are not read.
pub fn encode_morton_point(axes: usize, anchor: [u64; 3], level: u64) -> Result<u64, Refusal>
    ensures { result ≡ encode_answer axes level anchor }
{
    check_anchor(axes, anchor, level)?;
    Ok(key_at(axes, anchor, level))
}

// The anchors of a valid key.
pub fn anchors_of(axes: usize, key: u64) -> [u64; 3]
    requires { ValidKey axes key }
    ensures { result ≡ filled 3 (anchors axes key) }
{
    codes::decode(axes, keys::code_of(key))
}

// The anchors and the level of a cell.
pub fn decode_key(axes: usize, key: u64) -> Result<Decoded, Refusal>
    ensures { result ≡ decode_answer axes key }
{
    keys::check_key(axes, key)?;
    Ok(Decoded {
        anchor: anchors_of(axes, key),
        level: keys::level_of(key),
    })
}

// Whether two cells of one level touch: no anchors more than 1 apart.
pub fn touch_at_level(axes: usize, a: u64, b: u64) -> bool
    requires { ValidKey axes a × ValidKey axes b × (level_of a ≡ level_of b) }
    ensures { result ≡ near axes axes (level_of a) (code_of a) (code_of b) }
{
    let p = anchors_of(axes, a);
    let q = anchors_of(axes, b);
    for n in (0..axes).rev() {
        if q[n] + 1 < p[n] {
            return false;
        }
        if p[n] + 1 < q[n] {
            return false;
        }
    }
    true
}

// The refusals of two keys.
fn check_pair(axes: usize, a: u64, b: u64) -> Result<(), Refusal>
    ensures { result ≡ pair_check axes a b }
{
    keys::check_key(axes, a)?;
    keys::check_key(axes, b)
}

// Whether two cells touch; cells of different levels do not.
pub fn touching(axes: usize, a: u64, b: u64) -> Result<bool, Refusal>
    ensures { result ≡ touching_answer axes a b }
{
    check_pair(axes, a, b)?;
    if keys::level_of(a) == keys::level_of(b) {
        return Ok(touch_at_level(axes, a, b));
    }
    Ok(false)
}
