#![tactic(auto)]

// The direction rows of `morton_constants.rs`, in its order, and the neighbours of a cell along them.
ghost use Rattle.std.specs.Prelude.{◌≡◌, true, ℕ, ◌≤◌, ◌<◌, get_or};
ghost use Rattle.slices.specs.Lists.{filled};
ghost use Rattle.codes.specs.Anchors.{Bytes2};
ghost use Rattle.morton.specs.Keys.{ValidKey};
ghost use Rattle.neighbours.specs.Directions.{directions, stays as stays_on, moved as moved_along, neighbours as neighbours_of};
ghost use Rattle.neighbours.specs.Steps.{unit_row, raised as raised_step};
ghost use Rattle.morton.specs.Answers.{key_list};
ghost use Rattle.neighbours.specs.Answer.{neighbours_answer};

use axes::{One, Three, Two};
use morton::{KeyList, keys};
use refusal::Refusal;

// A row has a step for each of three axes, 0 past the number of axes.
const DIRECTION_VECTORS_1D: [[i64; 3]; One::NEIGHBOURS] = [[-1, 0, 0], [1, 0, 0]];

const DIRECTION_VECTORS_2D: [[i64; 3]; Two::NEIGHBOURS] = [
    [-1, -1, 0],
    [-1, 0, 0],
    [-1, 1, 0],
    [0, -1, 0],
    [0, 1, 0],
    [1, -1, 0],
    [1, 0, 0],
    [1, 1, 0],
];

const DIRECTION_VECTORS_3D: [[i64; 3]; Three::NEIGHBOURS] = [
    [-1, -1, -1],
    [-1, -1, 0],
    [-1, -1, 1],
    [-1, 0, -1],
    [-1, 1, -1],
    [-1, 0, 0],
    [-1, 0, 1],
    [-1, 1, 0],
    [-1, 1, 1],
    [0, -1, -1],
    [1, -1, -1],
    [0, -1, 0],
    [0, -1, 1],
    [1, -1, 0],
    [1, -1, 1],
    [0, 0, -1],
    [0, 1, -1],
    [1, 0, -1],
    [1, 1, -1],
    [0, 0, 1],
    [0, 1, 0],
    [0, 1, 1],
    [1, 0, 0],
    [1, 0, 1],
    [1, 1, 0],
    [1, 1, 1],
];

// One more than a step of a row, -1, 0 or 1, so that no number is negative. Any other step counts as 1.
fn raised(step: i64) -> u64
    ensures { (result ≡ raised_step step) × (result ≤ 2) }
{
    match step {
        -1 => 0,
        0 => 1,
        _ => 2,
    }
}

// Whether one step along a row from these anchors stays in the box.
fn stays(axes: usize, level: u64, from: [u64; 3], row: [i64; 3]) -> bool
    requires { (axes ≤ 3) × (level ≤ 16) × Bytes2 from × (unit_row row ≡ true) }
    ensures { result ≡ stays_on axes level from row }
{
    let end: u64 = 1 << level;
    for n in (0..axes).rev() {
        let up = from[n] + raised(row[n]);
        if up < 1 {
            return false;
        }
        if end < up {
            return false;
        }
    }
    true
}

// The anchors one step along a row that stays in the box.
fn moved(axes: usize, level: u64, from: [u64; 3], row: [i64; 3]) -> [u64; 3]
    requires { (axes ≤ 3) × Bytes2 from × (unit_row row ≡ true) × (stays_on axes level from row ≡ true) }
    ensures { result ≡ filled 3 (moved_along axes from row) }
{
    let mut to = [0u64; 3];
    for a in 0..axes {
        to[a] = from[a] + raised(row[a]) - 1;
    }
    to
}

// The neighbours of a valid key along the direction rows of its number of axes.
fn list_along(rows: &[[i64; 3]], axes: usize, key: u64) -> KeyList
    requires { ValidKey axes key × (rows.now ≡ directions axes) }
    ensures { result ≡ key_list (neighbours_of axes key) }
{
    let level = keys::level_of(key);
    let from = anchors::anchors_of(axes, key);
    let mut found = [0u64; Three::NEIGHBOURS];
    let mut len: usize = 0;
    for row in rows {
        if stays(axes, level, from, *row) {
            let to = moved(axes, level, from, *row);
            found[len] = anchors::key_at(axes, to, level);
            len += 1;
        }
    }
    KeyList { keys: found, len }
}

// The neighbours of a valid key, by its number of axes.
pub fn list_neighbours(axes: usize, key: u64) -> KeyList
    requires { ValidKey axes key }
    ensures { result ≡ key_list (neighbours_of axes key) }
{
    match axes {
        1 => {
            let rows = DIRECTION_VECTORS_1D;
            list_along(&rows, axes, key)
        }
        2 => {
            let rows = DIRECTION_VECTORS_2D;
            list_along(&rows, axes, key)
        }
        _ => {
            let rows = DIRECTION_VECTORS_3D;
            list_along(&rows, axes, key)
        }
    }
}

// The cells of the box that touch a cell, without it, in the order of the direction rows.
pub fn get_neighbours(axes: usize, key: u64) -> Result<KeyList, Refusal>
    ensures { result ≡ neighbours_answer axes key }
{
    keys::check_key(axes, key)?;
    Ok(list_neighbours(axes, key))
}
