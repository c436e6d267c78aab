#![tactic(auto)]

// A cell's place: its anchors in one number, for tests of touching without tables.
ghost use Rattle.std.specs.Prelude.{◌≡◌, ◌+◌, ◌*◌, ◌%◌, ◌^◌, ◌≤◌, ◌<◌};
ghost use Rattle.morton.specs.Keys.{ValidKey};
ghost use Rattle.morton.specs.Anchors.{within1};
ghost use Rattle.places.specs.Places.{step_of, place_at, place_of, beside};

const AXIS: u64 = 1048576;

const TWO_AXES: u64 = 1099511627776;

// The place of a child, by its parent's place and its own code.
pub fn place_below(axes: usize, place: u64, code: u64) -> u64
    requires { (axes ≤ 3) × (place < 1152921504606846976) }
    ensures { result ≡ step_of (code % 2 ^ axes) + 2 * place }
{
    let c = code % (1 << axes);
    c % 2 + c / 2 % 2 * AXIS + c / 4 % 2 * TWO_AXES + 2 * place
}

// The place of the cell with a code of a level.
fn place_at(axes: usize, level: u64, code: u64) -> u64
    requires { (axes ≤ 3) × (level ≤ 16) }
    ensures { result ≡ place_at axes level code }
{
    if level < 1 {
        return 0;
    }
    let up = place_at(axes, level - 1, code >> axes);
    place_below(axes, up, code)
}

// The place of a cell.
pub fn place_of(axes: usize, k: u64) -> u64
    requires { ValidKey axes k }
    ensures { result ≡ place_of axes k }
{
    place_at(axes, k % 32768, k / 32768)
}

// Whether two numbers differ by at most 1.
fn within_one(x: u64, y: u64) -> bool
    requires { (x < 1099511627776) × (y < 1099511627776) }
    ensures { result ≡ within1 x y }
{
    x <= y + 1 && y <= x + 1
}

// Whether two places differ by at most 1 on each axis, the second one taken so many levels up.
pub fn is_beside(p: u64, q: u64, up: u64) -> bool
    requires { up ≤ 16 }
    ensures { result ≡ beside p q up }
{
    if !within_one(p % AXIS, (q % AXIS) >> up) {
        return false;
    }
    if !within_one(p / AXIS % AXIS, (q / AXIS % AXIS) >> up) {
        return false;
    }
    within_one(p / TWO_AXES, (q / TWO_AXES) >> up)
}
