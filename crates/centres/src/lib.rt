#![tactic(auto)]

// The two float calls on cells, operation for operation as in the Rust: a cell's centre and side, and the test of two cells.
ghost use Rattle.std.specs.Prelude.{◌≡◌, ◌<◌};
ghost use Rattle.slices.specs.Lists.{filled};
ghost use Rattle.morton.specs.Keys.{level_of, code_of, ValidKey};
ghost use Rattle.morton.specs.Anchors.{anchors as anchors_at};
ghost use Rattle.centres.specs.Agreement.{Agree};
ghost use Rattle.centres.specs.Centres.{key_outcome, centre_on, side_length, centre_length, near_on, are_adjacent};

use morton::keys;
use refusal::Refusal;
use space::Box;

// The side of a cell at a level.
pub fn get_side_length(b: Box, level: u64) -> Result<f64, Refusal>
    ensures { result ≡ side_length b level }
{
    space::level_outcome(b, level)?;
    Ok(space::side_at(b.radius, level))
}

// Why a call with a box and a key is refused, if it is.
fn key_outcome(b: Box, key: u64) -> Result<(), Refusal>
    ensures { result ≡ key_outcome b key }
{
    space::box_outcome(b)?;
    keys::check_key(b.axes, key)
}

// The centre of a cell on axis a, by its anchors.
fn centre_on(b: Box, key: u64, anchor: [u64; 3], a: usize) -> f64
    requires { ValidKey b.axes key × (anchor ≡ filled 3 (anchors_at b.axes key)) × (a < 3) }
    ensures { result ≡ centre_on b (level_of key) (code_of key) a }
{
    if a >= b.axes {
        return 0.0;
    }
    let side = space::side_at(b.radius, keys::level_of(key));
    (anchor[a] as f64 + 0.5) * side + space::displacement(b, a)
}

// A cell's centre, 0 past the axes, and the length of its side.
#[derive(Clone, Copy)]
pub struct Centred {
    pub centre: [f64; 3],
    pub length: f64,
}

pub fn get_center_length(b: Box, key: u64) -> Result<Centred, Refusal>
    ensures { result ≡ centre_length b key }
{
    key_outcome(b, key)?;
    let anchor = anchors::anchors_of(b.axes, key);
    let x = centre_on(b, key, anchor, 0);
    let y = centre_on(b, key, anchor, 1);
    let z = centre_on(b, key, anchor, 2);
    Ok(Centred {
        centre: [x, y, z],
        length: space::side_at(b.radius, keys::level_of(key)),
    })
}

// Whether on every axis the centres of two cells differ by at most the mean of their sides, and a little more.
fn centres_near(b: Box, first: u64, second: u64) -> bool
    requires { ValidKey b.axes first × ValidKey b.axes second }
    ensures { result ≡ near_on b.axes b first second }
{
    let length_a = space::side_at(b.radius, keys::level_of(first));
    let length_b = space::side_at(b.radius, keys::level_of(second));
    let length = 0.5 * (length_a + length_b);
    let anchor_a = anchors::anchors_of(b.axes, first);
    let anchor_b = anchors::anchors_of(b.axes, second);
    for a in 0..b.axes {
        let value_a = centre_on(b, first, anchor_a, a);
        let value_b = centre_on(b, second, anchor_b, a);
        if !(space::magnitude(value_b - value_a) <= 1e-6 + length) {
            return false;
        }
    }
    true
}

// The Rust's test of two cells, of any two levels. For a box in the domain and two valid keys of one level it answers what the
// anchor test answers (agrees).
pub fn are_adjacent(b: Box, first: u64, second: u64) -> Result<bool, Refusal>
    ensures answer { result ≡ are_adjacent b first second }
    ensures agrees { Agree b first second result }
{
    key_outcome(b, first)?;
    keys::check_key(b.axes, second)?;
    Ok(centres_near(b, first, second))
}
